// Where bytes are written.
ghost use Rattle.std.specs.Prelude.{◌≡◌, ◌↔◌, IsOk, IsNone, None};

use crate::failure::Failure;
use std::fs::File;
use std::io::Write;

// Nowhere, to standard output, to standard error, or to a file.
#[derive(Clone, Copy)]
pub enum Sink<'a> {
    // Kept: one more place to write to, so that no caller asks whether there is one.
    Nowhere,
    Output(&'a HostRuntime),
    Errors(&'a HostRuntime),
    Kept(&'a File),
}

impl Sink<'_> {
    // Writes bytes.
    pub fn write(self, bytes: &[u8]) -> Result<(), Failure> {
        match self {
            Sink::Nowhere => {}
            Sink::Output(rt) => Print::write_all(&rt.stdout(), bytes)?,
            Sink::Errors(rt) => Print::write_all(&rt.stderr(), bytes)?,
            Sink::Kept(file) => {
                let mut end = file;
                Write::write_all(&mut end, bytes)?;
            }
        }
        Ok(())
    }
}

// Writes to a sink until a write fails; after that it writes nothing.
#[derive(Clone, Copy)]
pub struct Writer<'a> {
    pub to: Sink<'a>,
    failed: Option<Failure>,
}

impl<'a> Writer<'a> {
    pub fn new(to: Sink<'a>) -> Self
        ensures to_value { result.to ≡ to.entry }
        ensures fresh { result.failed ≡ None }
    {
        Writer { to, failed: None }
    }

    // Whether everything could be written so far.
    pub fn written(&self) -> Result<(), Failure>
        ensures { IsOk result ↔ IsNone self.now.failed }
    {
        match self.failed {
            Some(failure) => Err(failure),
            None => Ok(()),
        }
    }

    // Writes bytes, unless a write has failed: whether everything could be written.
    pub fn write(&mut self, bytes: &[u8]) -> Result<(), Failure>
        ensures { self.new.to ≡ self.old.to }
    {
        self.written()?;
        let now = self.to.write(bytes);
        self.failed = now.err();
        now
    }
}

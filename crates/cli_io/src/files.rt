// Files by the arguments that name them, and why they can't be opened.
use crate::args::arg;
use crate::reason::put_reason;
use crate::stop::Stop;
use std::fs::File;
use std::io::Read;
use std::{fs, io};
use text_line::{LINE, Page};

// Room for the name of a file, of at most 4095 bytes, and for one more, which shows that it is longer.
pub const PATH: usize = 4096;

// Writes to standard error; there is nowhere to say that it failed.
pub fn complain(rt: &HostRuntime, text: &[u8]) {
    let _ = Print::write_all(&rt.stderr(), text);
}

// Writes a line and its end to standard error.
pub fn complain_line(rt: &HostRuntime, line: &Page<'_>) {
    complain(rt, line.text());
    complain(rt, b"\n");
}

// Names the file of argument i on standard error.
pub fn name_file(rt: &HostRuntime, i: usize) {
    let mut room = [0u8; PATH];
    complain(rt, arg(rt, i, &mut room));
    complain(rt, b": ");
}

// An argument that can be no file's name.
fn no_name(rt: &HostRuntime, i: usize) -> Stop {
    let mut room = [0u8; LINE];
    let mut line = Page::over(&mut room, 0);
    line.put_named(b"argument ", i as u64);
    line.put_text(b": expected the name of a file, of 1 to 4095 bytes");
    complain_line(rt, &line);
    Stop::Unusable
}

// A name that is no text: std opens no file by it.
fn no_text(rt: &HostRuntime, i: usize) -> Stop {
    name_file(rt, i);
    complain(rt, b"expected the name of a file in UTF-8\n");
    Stop::Unusable
}

// The file of argument i can't be opened, for this reason.
fn refused(rt: &HostRuntime, i: usize, e: &io::Error) -> Stop {
    let mut room = [0u8; LINE];
    let mut line = Page::over(&mut room, 0);
    name_file(rt, i);
    put_reason(&mut line, e);
    complain_line(rt, &line);
    Stop::Unusable
}

// Opens the file that argument i names in this way, and says why where it can't be.
fn open_by<F: FnOnce(&str) -> io::Result<File> + Drop>(
    rt: &HostRuntime,
    i: usize,
    opens: F,
) -> Result<File, Stop>
    requires { F.IsAlwaysCallable opens }
{
    let mut room = [0u8; PATH];
    let path = arg(rt, i, &mut room);
    if path.is_empty() {
        return Err(no_name(rt, i));
    }
    let Ok(name) = str::from_utf8(path) else {
        return Err(no_text(rt, i));
    };
    opens(name).map_err(|e| refused(rt, i, &e))
}

// Opens a file for reading: one that can be read at all, since a directory opens, and can't.
fn open_readable(rt: &HostRuntime, path: &str) -> io::Result<File> {
    let file = fs::open(rt, path)?;
    let mut none = [0u8; 0];
    let mut from = &file;
    from.read(&mut none)?;
    Ok(file)
}

// Opens the file that argument i names, and says why where it can't be read.
pub fn open_file(rt: &HostRuntime, i: usize) -> Result<File, Stop> {
    open_by(rt, i, |path| open_readable(rt, path))
}

// Opens the file that argument i names for writing, emptied, or made where it is missing, and says why where it can't be.
pub fn overwrite_file(rt: &HostRuntime, i: usize) -> Result<File, Stop> {
    open_by(rt, i, |path| fs::create(rt, path))
}

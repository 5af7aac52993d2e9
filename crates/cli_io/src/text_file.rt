// A file of text, read as a whole.
ghost use Rattle.std.specs.Prelude.{◌≤◌, length, OnOk, IfOk, IfErr};

use crate::failure::Failure;
use crate::files::open_file;
use std::fs::File;
use std::io::Read;

// The most bytes that a text has, and one more, which shows that a file is longer.
pub const TEXT: usize = 131072;

// Where in a file the reading failed, and why.
struct Broken {
    at: usize,
    failure: Failure,
}

// Reads a file until its end, or until the room is full: how many bytes there are.
fn fill(file: &File, room: &mut [u8]) -> Result<usize, Broken>
    ensures count { IfOk result (λ n. n ≤ length room.old) }
    ensures at { IfErr result (λ broken. broken.at ≤ length room.old) }
{
    let mut from = file;
    let mut at = 0;
    for _ in 0..u64::MAX {
        match from.read(&mut room[at..]) {
            Ok(0) => break,
            Ok(n) => at += n,
            Err(e) => {
                let failure = Failure::from(e);
                return Err(Broken { at, failure });
            }
        }
    }
    Ok(at)
}

// A text that can't be used: how many bytes of its file were read, and why no more could be; no failure where it can't be opened.
#[derive(Clone, Copy, PartialEq, Eq)]
pub struct Unread {
    pub count: usize,
    pub failure: Option<Failure>,
}

// The text of the file that argument i names, as far as there is room for it. Where it can't be opened or read, it is said why.
pub fn read_text<'a>(rt: &HostRuntime, i: usize, room: &'a mut [u8]) -> Result<&'a [u8], Unread>
    ensures text { IfOk result (λ text. length text.now ≤ length room.old) }
    ensures count { IfErr result (λ unread. unread.count ≤ length room.old) }
{
    let Ok(file) = open_file(rt, i) else {
        let failure = None;
        return Err(Unread { count: 0, failure });
    };
    match fill(&file, &mut *room) {
        Ok(n) => Ok(&room[..n]),
        Err(Broken { at, failure }) => {
            failure.complain_read(rt, i, at as u64);
            let failure = Some(failure);
            Err(Unread { count: at, failure })
        }
    }
}

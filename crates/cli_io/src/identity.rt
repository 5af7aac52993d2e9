// Which file a name stands for: two names are of one file where the system gives them one device and one number there, whether
// by another path, a symbolic link or a hard link.
ghost use Rattle.std.specs.Prelude.{◌≡◌};
ghost use Rattle.cli_io.specs.Identities.{is_same};

use crate::args::arg;
use crate::files::PATH;
use std::fs;
use std::fs::Metadata;
use std::os::unix::fs::{FileTypeExt, MetadataExt};

// A file by its device and its number there (its inode).
#[derive(Clone, Copy, PartialEq, Eq)]
struct Identity {
    device: u64,
    number: u64,
}

// What the system says of a file that was found: nothing of a character device, as /dev/null or a terminal, which is taken for no file:
// what is written to one isn't what is read from it.
fn identity_in(found: &Metadata) -> Option<Identity> {
    if found.file_type().is_char_device() {
        return None;
    }
    Some(Identity {
        device: found.dev(),
        number: found.ino(),
    })
}

// The file that argument i names, if there is one.
fn identity_of(rt: &HostRuntime, i: usize) -> Option<Identity> {
    let mut room = [0u8; PATH];
    let path = str::from_utf8(arg(rt, i, &mut room)).ok()?;
    let found = fs::metadata(rt, path).ok()?;
    identity_in(&found)
}

// Whether both are known, and are one file.
#[tactic(auto, unfolding(crate::specs::Identities::is_same))]
fn is_same(a: Option<Identity>, b: Option<Identity>) -> bool
    ensures { result ≡ is_same a b }
{
    match (a, b) {
        (Some(a), Some(b)) => a == b,
        _ => false,
    }
}

// Whether arguments i and j name one file.
pub fn name_one_file(rt: &HostRuntime, i: usize, j: usize) -> bool {
    is_same(identity_of(rt, i), identity_of(rt, j))
}

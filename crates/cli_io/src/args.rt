// The program's arguments, as the system gives them; the first is the program's name.
ghost use Rattle.std.specs.Prelude.{◌≤◌, length};

use std::env::FillError;
use std::rt::Env;

// The bytes of argument i, put into the room: none where there is no such argument, or it is longer than the room.
pub fn arg<'a>(rt: &HostRuntime, i: usize, room: &'a mut [u8]) -> &'a [u8]
    ensures { length result.now ≤ length room.old }
{
    let n = rt.arg(i, &mut *room).unwrap_or(0);
    &room[..n]
}

// Whether there is an argument i.
fn is_given(rt: &HostRuntime, i: usize) -> bool {
    let mut one = [0u8; 1];
    !matches!(rt.arg(i, &mut one), Err(FillError::NotPresent))
}

// How many arguments there are, the program's name with them.
pub fn arg_count(rt: &HostRuntime) -> usize {
    (0..usize::MAX)
        .position(|i| !is_given(rt, i))
        .unwrap_or(usize::MAX)
}

// Turn by turn: a piece of a file is read, and fed whole, or bit by bit with a line for each.
ghost use Rattle.std.specs.Prelude.{◌≤◌};

use crate::flow::Flow;
use crate::memory::Memory;
use crate::session::Session;
use cli_io::input::Reading;
use cli_io::output::Output;

// What is fed turn by turn: a trace, or a capture.
pub trait Source {
    // The bench, and how far the file is.
    fn session(&self) -> Session;

    // How many of the bytes that were read are fed next, up to the end of what has a line of its own; `left` are still to be fed of those
    // that were taken before.
    fn take(&mut self, bytes: &[u8], left: usize) -> usize;

    // Feeds bytes; where there is a line of it then, it is printed.
    // Kept: the parts of what flows are lent one by one, since the bytes and the room for answers are parts of it too.
    fn feed(
        &mut self,
        memory: &mut Memory<'_>,
        bytes: &[u8],
        answers: &mut [u8],
        printed: &mut Output<'_>,
    );

    // The line of what the file's end cuts off.
    fn print_rest(&self, printed: &mut Output<'_>);
}

// How much room the next call has: that of one answer, where each has its line, or else all that is free.
fn room_of(free: usize, quiet: bool) -> usize
    ensures { result ≤ free }
{
    if quiet { free } else { free.min(8) }
}

// Feeds from the piece that was read.
fn feed_piece<S: Source>(source: &mut S, memory: &mut Memory<'_>, flow: &mut Flow<'_>) {
    let quiet = flow.quiet;
    let left = flow.left;
    let input = &mut flow.input;
    let kept = &mut flow.kept;
    let printed = &mut flow.printed;
    let bytes = input.unread();
    let n = if quiet {
        bytes.len()
    } else {
        source.take(bytes, left).min(bytes.len())
    };
    kept.make_room(8);
    let count = kept.count;
    let free = &mut kept.bytes[count..];
    let room = room_of(free.len(), quiet);
    source.feed(memory, &bytes[..n], &mut free[..room], printed);
    let session = source.session();
    kept.wrote(session.written);
    input.pass(session.consumed);
    flow.left = n.saturating_sub(session.consumed);
}

// The end of the file, perhaps within what has a line of its own.
fn finish<S: Source>(source: &S, flow: &mut Flow<'_>) {
    if !flow.quiet && flow.input.reading() == Reading::Ended {
        source.print_rest(&mut flow.printed);
    }
}

// Feeds until the file is at its end, the bench stops, or something can't be read or written. A proved loop has to end, and nothing says
// that a file does: no run uses up so many turns.
pub fn feed_all<S: Source>(
    rt: &HostRuntime,
    source: &mut S,
    memory: &mut Memory<'_>,
    flow: &mut Flow<'_>,
) {
    for _ in 0..u64::MAX {
        if !flow.input.unread().is_empty() {
            feed_piece(source, memory, flow);
        } else if flow.input.reading() == Reading::Goes {
            flow.read_on(rt, source.session().offset);
        } else {
            return finish(source, flow);
        }
        if !flow.is_whole() || !source.session().goes_on() {
            return;
        }
    }
}

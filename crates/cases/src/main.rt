// Reads a stream of cases, version 2, from standard input, drives set-up, feed, replay, the lateness report, time sheets and the reader and writer of
// messages, and writes what they gave and the state afterwards. What the stream keeps for later requests has its default, or the stream is malformed. A
// malformed stream ends it with `bad case` on standard error; what was written before stands.
#![tactic(auto)]

mod input; // bytes and words from standard input
mod output; // bytes and words to standard output
mod front; // what a case lends: lengths and the set-up
mod state; // what goes from one operation to the next
mod calls; // what a call of feed or of replay reads and writes
mod operations; // set-up, feed, and lending a state
mod replay_operations; // replay, and lending the state of one
mod lateness_operations; // the lateness report
mod sheet_operation; // a time sheet
mod message_operations; // a message written, and one read
mod running; // one case

use input::{BadCase, next_byte};
use running::run_case;

const VERSION: u8 = 2;

// A proved loop has to end, and nothing says that a stream does: the range is longer than any run.
fn run_cases(rt: &HostRuntime) -> Result<(), BadCase> {
    for _ in 0..u64::MAX {
        match next_byte(rt) {
            Some(slots) => run_case(rt, slots)?,
            None => break,
        }
    }
    Ok(())
}

fn run_stream(rt: &HostRuntime) -> Result<(), BadCase> {
    match next_byte(rt) {
        Some(VERSION) => run_cases(rt),
        _ => Err(BadCase),
    }
}

fn main(rt: HostRuntime) {
    if run_stream(&rt).is_err() {
        let _ = Print::write_all(&rt.stderr(), b"bad case\n");
    }
}

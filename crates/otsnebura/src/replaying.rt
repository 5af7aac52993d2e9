// The end of `otsnebura replay CARD CAPTURE`.
use crate::run::{Job, close_answers};
use cli_capture::complaint::complain_capture;
use cli_io::failure::after_printing;
use cli_io::input::Reading;
use cli_io::stop::Stop;
use cli_lateness::table::print_table;
use cli_replay::ending::print_replay_ending;
use cli_replay::session::{ReplaySession, fault_of};
use cli_run::flow::Flow;
use cli_run::memory::Memory;
use readiness::Moments;

// Whether a capture ends before its last byte, or is cut off.
pub fn ends_early(state: ReplaySession) -> bool {
    state.session.number != 0 || fault_of(state).is_some()
}

// Prints the end, and the lateness report, where seen times are given and the capture could be read: whether its totals are refused.
fn print_end(
    seen: Option<Moments>,
    memory: &Memory<'_>,
    state: ReplaySession,
    flow: &mut Flow<'_>,
) -> bool {
    let unread = matches!(flow.input.reading(), Reading::Failed(_));
    print_replay_ending(&mut flow.printed, memory, state, flow.quiet || unread);
    match seen {
        Some(seen) if !unread => {
            let slots = memory.card.setup.slots;
            print_table(&mut flow.printed, slots, state.moments, seen)
        }
        _ => false,
    }
}

// Everything is written, and what went wrong is said.
// Kept: the seen times are those of the job, which a caller that matched it has in hand.
pub fn close_replay(
    job: Job<'_>,
    seen: Option<Moments>,
    memory: &Memory<'_>,
    state: ReplaySession,
    flow: &mut Flow<'_>,
) -> Result<(), Stop> {
    let session = state.session;
    let input = job.options.input;
    flow.end_progress(job.rt, session.offset);
    let kept = close_answers(job, flow);
    let refused = print_end(seen, memory, state, flow);
    let printed = after_printing(job.rt, flow.printed.flush());
    if let Reading::Failed(failure) = flow.input.reading() {
        failure.complain_read(job.rt, input, session.offset);
        return Err(Stop::Unusable);
    }
    complain_capture(job.rt, input, session.offset, fault_of(state));
    kept?;
    printed?;
    if refused || ends_early(state) {
        return Err(Stop::Refused);
    }
    Ok(())
}

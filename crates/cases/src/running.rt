// One case: what it lends, then its operations until 00.
use crate::front::{FRONT, is_good_front, lengths_in, setup_in};
use crate::input::{BadCase, fill, next_byte, read_words};
use crate::lateness_operations::{lateness_operation, totals_operation};
use crate::message_operations::{read_operation, write_operation};
use crate::operations::{feed_operation, lend_operation, set_up_operation};
use crate::replay_operations::{lend_replay_operation, replay_operation};
use crate::sheet_operation::sheet_operation;
use crate::state::State;
use readiness::{all_down, no_moments};
use records::blank_port;
use replay_state::stamps::fresh;

// The operations, by their numbers.
// Kept: 00 is an operation of the stream, and no missing one.
#[derive(Clone, Copy)]
pub enum Operation {
    End,
    SetUp,
    Feed,
    Lend,
    ReadSheet,
    Replay,
    LendReplay,
    ReportLateness,
    ReportTotals,
    WriteMessage,
    ReadMessage,
}

impl TryFrom<u8> for Operation {
    type Error = BadCase;

    fn try_from(number: u8) -> Result<Self, BadCase> {
        // Kept: the numbers of the stream become operations here alone.
        match number {
            0 => Ok(Operation::End),
            1 => Ok(Operation::SetUp),
            2 => Ok(Operation::Feed),
            3 => Ok(Operation::Lend),
            4 => Ok(Operation::ReadSheet),
            6 => Ok(Operation::Replay),
            7 => Ok(Operation::LendReplay),
            8 => Ok(Operation::ReportLateness),
            9 => Ok(Operation::ReportTotals),
            0x0D => Ok(Operation::WriteMessage),
            0x0E => Ok(Operation::ReadMessage),
            _ => Err(BadCase),
        }
    }
}

// A proved loop has to end, and nothing says that a stream does: the range is longer than any run.
fn run_operations(rt: &HostRuntime, state: &mut State<'_>) -> Result<(), BadCase> {
    for _ in 0..u64::MAX {
        let number = next_byte(rt).ok_or(BadCase)?;
        match Operation::try_from(number)? {
            Operation::End => return Ok(()),
            Operation::SetUp => set_up_operation(rt, &mut *state),
            Operation::Feed => feed_operation(rt, &mut *state)?,
            Operation::Lend => lend_operation(rt, &mut *state)?,
            Operation::ReadSheet => sheet_operation(rt, &mut *state)?,
            Operation::Replay => replay_operation(rt, &mut *state)?,
            Operation::LendReplay => lend_replay_operation(rt, &mut *state)?,
            Operation::ReportLateness => lateness_operation(rt, state)?,
            Operation::ReportTotals => totals_operation(rt)?,
            Operation::WriteMessage => write_operation(rt)?,
            Operation::ReadMessage => read_operation(rt)?,
        }
    }
    Ok(())
}

// The rest of a case after its first byte, the number of slots. It starts with everything at 0, statuses Down, and a replay that has taken nothing.
pub fn run_case(rt: &HostRuntime, slots: u8) -> Result<(), BadCase> {
    let mut front = [0u8; FRONT];
    let mut live = [0u32; 2112];
    let mut defaults = [0u32; 2112];
    let mut cells = [0u32; 4200];
    fill(rt, &mut front)?;
    if !is_good_front(&front) {
        return Err(BadCase);
    }
    let lengths = lengths_in(&front);
    let defaults = defaults.get_mut(..lengths.defaults).ok_or(BadCase)?;
    read_words(rt, &mut *defaults)?;
    let mut state = State {
        setup: setup_in(slots, &front),
        port: blank_port(),
        lent: lengths.statuses,
        statuses: all_down(),
        replay: fresh(),
        moments: no_moments(),
        live: live.get_mut(..lengths.live).ok_or(BadCase)?,
        defaults,
        cells: cells.get_mut(..lengths.cells).ok_or(BadCase)?,
    };
    run_operations(rt, &mut state)
}

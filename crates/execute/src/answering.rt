// An answer's 8 bytes: status; interrupts; FRS queued; FRS dropped; 4 data bytes.
ghost use Rattle.std.specs.Prelude.{◌≡◌, ◌<◌};
ghost use Rattle.records.specs.Answer.{completion_number, interrupts, answer_bytes, reply};
ghost use Rattle.frs_queue.specs.Queue.{no_tally};

use frs_queue::Tally;
use records::{Completion, Reply};

// Kept: the status is a byte of the answer, numbered as in the papers.
// The status of each completion.
pub fn completion_number(completion: Completion) -> u8
    ensures { result ≡ completion_number completion }
{
    completion as u8
}

// Interrupts: bit 0 Received, 1 Overflow, 2 DRS.
fn interrupt_bits(tally: Tally) -> u8
    ensures { result ≡ interrupts tally }
{
    u8::from(tally.received) + 2 * u8::from(tally.overflow) + 4 * u8::from(tally.drs)
}

pub fn answer_bytes(reply: Reply) -> [u8; 8]
    ensures { result ≡ answer_bytes reply }
{
    let Reply {
        completion,
        tally,
        ..
    } = reply;
    let [first, second, third, fourth] = reply.data.to_le_bytes();
    [
        completion_number(completion),
        interrupt_bits(tally),
        tally.queued,
        tally.dropped,
        first,
        second,
        third,
        fourth,
    ]
}

// Nothing has come.
pub fn no_tally() -> Tally
    ensures { result ≡ no_tally }
{
    Tally {
        received: false,
        overflow: false,
        drs: false,
        queued: 0,
        dropped: 0,
    }
}

// The answer to a record that brought nothing.
pub fn plain_reply(completion: Completion, data: u32) -> Reply
    ensures { result ≡ reply completion no_tally «data» }
{
    Reply {
        completion,
        tally: no_tally(),
        data,
    }
}

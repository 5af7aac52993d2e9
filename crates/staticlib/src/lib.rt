// The static library for the benchmark: a card's text and a trace in, answers and the final state as bytes out.
#![tactic(auto)]

ghost use Rattle.std.specs.Prelude.{◌≡◌};
ghost use Rattle.library_run.specs.Run.{shown, run_of};

use library_code::{Way, run_text};

// Sets the card up and feeds it the trace in pieces of so many bytes, each with the room for answers that is left. 0 stands for
// one piece. Gives the last call's number, the number for which the set-up is refused, 100 where the card's text is no card, or
// 101 where the image is too short. The image takes the counts of bytes consumed and written, eight bytes each, and the state.
// Kept: these are the parameters of the C interface.
#[unsafe(no_mangle)]
pub extern "C" fn otsnebura_run(
    card: &[u8],
    trace: &[u8],
    piece: usize,
    answers: &mut [u8],
    image: &mut [u8],
) -> u64
    ensures { shown result answers.new image.new
        ≡ run_of card.now trace.now piece answers.old image.old }
{
    run_text(Way::Trace(piece), card, trace, answers, image)
}

// The static library for the benchmark of replay: a card's text and a capture in, answers and the final state as bytes out.
#![tactic(auto)]

ghost use Rattle.std.specs.Prelude.{◌≡◌};
ghost use Rattle.library_run.specs.Run.{shown, replay_of};

use library_code::{Way, run_text};

// Sets the card up and replays the whole capture in one call, from its beginning. Gives the call's number, the number for which the
// set-up is refused, 100 where the card's text is no card, or 101 where the image is too short. The image takes the counts of bytes
// consumed and written, eight bytes each, and the state.
#[unsafe(no_mangle)]
pub extern "C" fn otsnebura_replay(
    card: &[u8],
    capture: &[u8],
    answers: &mut [u8],
    image: &mut [u8],
) -> u64
    ensures { shown result answers.new image.new
        ≡ replay_of card.now capture.now answers.old image.old }
{
    run_text(Way::Capture, card, capture, answers, image)
}

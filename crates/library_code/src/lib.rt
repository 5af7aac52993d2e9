// The code of the static libraries: a card's text and a trace or a capture in, answers and the final state as bytes out.
#![tactic(auto)]

ghost use Rattle.std.specs.Prelude.{◌≡◌, ◌++◌, ◌+◌, ◌*◌, ◌≤◌, length, take};
ghost use Rattle.std.proofs.lemmas.List.Edits.{sets};
ghost use Rattle.bits.specs.Widths.{at_most};
ghost use Rattle.trace_in_pieces.specs.Pieces.{blank_held};
ghost use Rattle.state_layout.specs.Numbers.{low_first};
ghost use Rattle.state_layout.specs.Image.{state_bytes};
ghost use Rattle.library_code.specs.Ways.{captured, piece_of};
ghost use Rattle.library_run.specs.Run.{shown, image_of, image_size, showing, ran_on, run_on_card, run_on_text};

use card_grammar::Card;
use feed::Fed;
use readiness::{Setup, Status};
use records::Port;
use run_in_pieces::{replay_over, run_over};
use state_image::numbers::{put_eight, put_words_at};
use state_image::state::{image_size, put_state};

// The card's text is refused.
const BAD_CARD: u64 = 100;

// The image is too short.
const SHORT_IMAGE: u64 = 101;

// ---- The image

// The two counts, the port and the statuses, the live words, the queue cells.
fn image_bytes(slots: usize, queue: usize) -> usize
    requires { (slots ≤ 32) × (queue ≤ 4095) }
    ensures { result ≡ image_size slots queue }
{
    16 + image_size(slots) + 256 * slots + 4 * queue
}

fn put_counts(image: &mut [u8], consumed: usize, written: usize)
    ensures { image.new ≡ sets image.old 0 (low_first 8 consumed ++ low_first 8 written) }
{
    put_eight(&mut *image, 0, consumed as u64);
    put_eight(&mut *image, 8, written as u64);
}

fn put_state_behind(image: &mut [u8], slots: usize, port: Port, statuses: [Status; 32])
    requires { (slots ≤ 32) × (16 + (46 + 27 * slots) ≤ length image.old) }
    ensures image_after { image.new ≡ sets image.old 16 (state_bytes port (take slots statuses)) }
    ensures statuses_len { length statuses ≡ 32 }
{
    put_state(&mut image[16..], port, statuses, slots);
}

// Kept: the slices and counts stay as they are named by the staticlibs' C interface and by `library_run`'s definitions; a struct of them would be made for one call.
fn put_image(image: &mut [u8], slots: usize, fed: Fed, live: &[u32], cells: &[u32])
    requires { (slots ≤ 32) × (length live.now ≡ 64 * slots) × (image_size slots (length cells.now) ≤ length image.old) }
    ensures image_after { image.new
        ≡ sets image.old 0 (image_of fed.consumed fed.written fed.port (take slots fed.statuses) live.now cells.now) }
    ensures statuses_len { (length fed.statuses ≡ 32) × (length fed.port.carried ≡ 16) }
{
    let port = fed.port;
    let statuses = fed.statuses;
    let words = 16 + image_size(slots);
    put_counts(&mut *image, fed.consumed, fed.written);
    put_state_behind(&mut *image, slots, port, statuses);
    put_words_at(&mut *image, words, live);
    put_words_at(&mut *image, words + 256 * slots, cells);
}

// ---- The run

// What is run: a capture, in one call, or a trace, in pieces of so many bytes, where 0 stands for one piece.
#[derive(Clone, Copy)]
pub enum Way {
    Capture,
    Trace(usize),
}

// Replays a capture or feeds a trace, over lent memory, and puts the counts and the state.
// Kept: eight parameters, which `library_run`'s `ran_on` and `showing` take one by one.
fn run_and_show(
    way: Way,
    setup: Setup,
    live: &mut [u32],
    defaults: &[u32],
    cells: &mut [u32],
    input: &[u8],
    answers: &mut [u8],
    image: &mut [u8],
) -> u64
    requires { (length live.old ≡ 64 * at_most setup.slots 32) × (image_size (at_most setup.slots 32) (length cells.old) ≤ length image.old) }
    ensures { shown result answers.new image.new
        ≡ showing (at_most setup.slots 32)
        (ran_on (captured way) (piece_of way) setup defaults.now (blank_held setup live.old cells.old) input.now answers.old)
        image.old }
{
    let fed = match way {
        Way::Capture => replay_over(setup, &mut *live, defaults, &mut *cells, input, answers),
        Way::Trace(piece) => run_over(
            setup,
            &mut *live,
            defaults,
            &mut *cells,
            input,
            piece,
            answers,
        ),
    };
    put_image(image, setup.slots.min(32), fed, live, cells);
    u64::from(fed.number)
}

// Runs a capture or a trace on a card that was read.
// Kept: six parameters, as `library_run`'s `run_on_card` takes them.
fn run_card(
    way: Way,
    card: Card,
    words: &[u32],
    input: &[u8],
    answers: &mut [u8],
    image: &mut [u8],
) -> u64
    requires { length words.now ≡ 2048 }
    ensures { shown result answers.new image.new
        ≡ run_on_card (captured way) (piece_of way) card words.now input.now answers.old image.old }
{
    let mut live = [0u32; 2048];
    let mut cells = [0u32; 4095];
    let setup = card.setup;
    let slots = setup.slots.min(32);
    let of_slots = 64 * slots;
    let queue = card.queue.min(4095);
    if image.len() < image_bytes(slots, queue) {
        return SHORT_IMAGE;
    }
    run_and_show(
        way,
        setup,
        &mut live[0..of_slots],
        &words[0..of_slots],
        &mut cells[0..queue],
        input,
        answers,
        image,
    )
}

// Reads the card's text, and runs a capture or a trace on the card.
// Kept: five parameters, as the staticlibs' C functions are given them.
pub fn run_text(way: Way, card: &[u8], input: &[u8], answers: &mut [u8], image: &mut [u8]) -> u64
    ensures { shown result answers.new image.new
        ≡ run_on_text (captured way) (piece_of way) card.now input.now answers.old image.old }
{
    let mut words = [0u32; 2048];
    match card_text::read_card(card, &mut words) {
        Ok(card) => run_card(way, card, &words, input, answers, image),
        Err(_) => BAD_CARD,
    }
}

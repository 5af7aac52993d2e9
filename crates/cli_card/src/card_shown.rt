// `otsnebura card CARD`: the card with each code and its time, and whether its set-up is refused.
use crate::refusal::complain_refusal;
use cli_io::failure::{Failure, after_printing};
use cli_io::output::Output;
use cli_io::sink::Sink;
use cli_io::stop::Stop;
use cli_run::memory::Card;
use describe_state::card_words::{put_default, put_entry, put_front};

fn print_front(out: &mut Output<'_>, card: &Card) {
    let setup = card.setup;
    out.put(|page| put_front(page, setup.slots, card.queue, setup.bus, setup.port_id));
    out.end_line();
}

// The entries of the card's slots, and the default words that aren't 0.
fn print_card(rt: &HostRuntime, card: &Card) -> Result<(), Failure> {
    let mut out = Output::new(Sink::Output(rt));
    print_front(&mut out, card);
    let setup = card.setup;
    for (slot, entry) in setup.entries.iter().take(setup.slots).enumerate() {
        out.put(|page| put_entry(page, slot, *entry));
        out.end_line();
    }
    for (index, word) in card.words.iter().enumerate() {
        if *word != 0 {
            out.put(|page| put_default(page, index, *word));
            out.end_line();
        }
    }
    after_printing(rt, out.flush())
}

// Shows the card that argument i names, and says where its set-up is refused.
pub fn show_card(rt: &HostRuntime, i: usize, card: &Card) -> Result<(), Stop> {
    let printed = print_card(rt, card);
    let refused = card
        .refusal()
        .map(|number| complain_refusal(rt, i, card, number));
    printed?;
    match refused {
        Some(stop) => Err(stop),
        None => Ok(()),
    }
}

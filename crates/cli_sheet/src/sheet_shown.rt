// `otsnebura sheet CARD SHEET`: the card with the times of the sheet, and what is wrong with them.
use cli_card::card_file::load_card;
use cli_io::args::arg;
use cli_io::failure::{Failure, after_printing};
use cli_io::files::{PATH, complain};
use cli_io::sink::Sink;
use cli_io::stop::Stop;
use cli_io::text_file::{TEXT, read_text};
use cli_run::memory::Card;
use readiness::Setup;
use sheet_text::{put_card, put_doubts, put_refused};
use text_line::{PAGE, Page};

// The arguments that name the card and the sheet, and whether only what is wrong is printed.
#[derive(Clone, Copy)]
pub struct SheetCall {
    pub card: usize,
    pub sheet: usize,
    // Kept: a switch that is given or not.
    pub check: bool,
}

// So many bytes of a name leave room for a line about each of 128 times.
const NAME: usize = 800;

// Room for why a sheet is refused, after a name of 4096 bytes.
const REFUSAL: usize = 8192;

// ---- What is printed

// Says why the sheet that argument i names is refused.
fn refuse_sheet(rt: &HostRuntime, i: usize, setup: Setup, text: &[u8]) -> Stop {
    let mut name = [0u8; PATH];
    let mut room = [0u8; REFUSAL];
    let mut page = Page::over(&mut room, 0);
    put_refused(&mut page, arg(rt, i, &mut name), setup, text);
    complain(rt, page.text());
    Stop::Refused
}

// Says where the unit of the sheet that argument i names may be wrong.
// Kept: two set-ups and a text that come together in this call alone.
fn show_doubts(rt: &HostRuntime, i: usize, before: Setup, after: Setup, text: &[u8]) {
    let mut given = [0u8; PATH];
    let mut room = [0u8; PAGE];
    let mut page = Page::over(&mut room, 0);
    let name = arg(rt, i, &mut given);
    let n = name.len().min(NAME);
    put_doubts(&mut page, &name[..n], before, after, text);
    complain(rt, page.text());
}

// Prints the card with the set-up after the sheet.
fn print_card(rt: &HostRuntime, card: &Card, after: Setup, text: &[u8]) -> Result<(), Failure> {
    let mut room = [0u8; PAGE];
    let mut page = Page::over(&mut room, 0);
    put_card(&mut page, after, card.queue, &card.words, text);
    after_printing(rt, Sink::Output(rt).write(page.text()))
}

// ---- The sheet on the card

// The card with the times of a sheet's text.
fn with_times(rt: &HostRuntime, call: SheetCall, card: &Card, text: &[u8]) -> Result<(), Stop> {
    let before = card.setup;
    let got = sheet::read(text, before);
    if got.number != 0 {
        return Err(refuse_sheet(rt, call.sheet, before, text));
    }
    let after = got.setup;
    let printed = if call.check {
        Ok(())
    } else {
        print_card(rt, card, after, text)
    };
    show_doubts(rt, call.sheet, before, after, text);
    printed?;
    Ok(())
}

// Reads the card and the sheet. The room is more than enough: the longest sheet that is accepted has 1,856 bytes, and the earliest bad line
// of a longer one stands within the room.
pub fn sheet_command(rt: &HostRuntime, call: SheetCall) -> Result<(), Stop> {
    let card = load_card(rt, call.card)?;
    let mut room = [0u8; TEXT];
    let text = read_text(rt, call.sheet, &mut room)?;
    with_times(rt, call, &card, text)
}

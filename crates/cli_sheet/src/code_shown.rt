// `otsnebura code TIME UNIT`: the code of one time.
use cli_arguments::arguments::{arg_count, bad_usage};
use cli_io::args::arg;
use cli_io::failure::after_printing;
use cli_io::files::complain;
use cli_io::sink::Sink;
use cli_io::stop::Stop;
use sheet::{number_in, unit_in};
use sheet_text::{put_code_lines, put_too_long_line};
use text_line::{LINE, Page};
use times::{ClaimedTime, claimed};

// The time that two words claim.
fn time_of_words(time: &[u8], unit: &[u8]) -> Option<ClaimedTime> {
    let n = number_in(time);
    let u = unit_in(unit);
    if n.fits && u.fits {
        Some(claimed(n.number, u.unit))
    } else {
        None
    }
}

// Says that a time is too long for a code.
fn refuse_code(rt: &HostRuntime, c: ClaimedTime) -> Stop {
    let mut room = [0u8; LINE];
    let mut page = Page::over(&mut room, 0);
    put_too_long_line(&mut page, c);
    complain(rt, page.text());
    Stop::Refused
}

// Prints the lines of a time; there are none for a time without a code.
fn show_code(rt: &HostRuntime, c: ClaimedTime) -> Result<(), Stop> {
    let mut room = [0u8; LINE];
    let mut page = Page::over(&mut room, 0);
    put_code_lines(&mut page, c);
    if page.len() == 0 {
        return Err(refuse_code(rt, c));
    }
    after_printing(rt, Sink::Output(rt).write(page.text()))?;
    Ok(())
}

// The time that the arguments claim, if they do.
fn time_given(rt: &HostRuntime) -> Option<ClaimedTime> {
    if arg_count(rt) != 4 {
        return None;
    }
    let mut time = [0u8; 16];
    let mut unit = [0u8; 16];
    time_of_words(arg(rt, 2, &mut time), arg(rt, 3, &mut unit))
}

pub fn code_command(rt: &HostRuntime) -> Result<(), Stop> {
    match time_given(rt) {
        Some(c) => show_code(rt, c),
        None => Err(bad_usage(
            rt,
            b"code wants a time of 1 to 10 decimal digits and a unit, ns, us or ms",
        )),
    }
}

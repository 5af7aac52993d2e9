// A file of seen times: read as a whole, and refused with its line.
use cli_io::files::{complain_line, name_file};
use cli_io::stop::Stop;
use cli_io::text_file::{TEXT, read_text};
use describe_lateness::refusals::put_file_refusal;
use readiness::Moments;
use seen_grammar::SeenRefusal;
use text_line::{LINE, Page};

// Says why the file that argument i names is refused.
fn refuse(rt: &HostRuntime, i: usize, count: usize, why: SeenRefusal) -> Stop {
    let mut room = [0u8; LINE];
    let mut line = Page::over(&mut room, 0);
    name_file(rt, i);
    put_file_refusal(&mut line, count as u64, why);
    complain_line(rt, &line);
    Stop::Refused
}

// The seen times in the file that argument i names, for a card of so many slots. The room is more than enough: the longest file that is
// accepted has 992 bytes, and the earliest bad line of a longer one stands within the room.
pub fn load_seen(rt: &HostRuntime, i: usize, slots: usize) -> Result<Moments, Stop> {
    let mut room = [0u8; TEXT];
    let text = read_text(rt, i, &mut room)?;
    let got = seen::read(text, slots);
    match got.refusal {
        SeenRefusal::NoRefusal => Ok(got.times),
        why => Err(refuse(rt, i, got.line, why)),
    }
}

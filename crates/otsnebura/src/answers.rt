// The file that `--answers` names: it is none of the inputs.
use crate::options::Options;
use cli_io::files::{complain, name_file};
use cli_io::identity::name_one_file;

// The name of what is fed.
fn name_of(capture: bool) -> &'static [u8] {
    if capture { b"capture" } else { b"trace" }
}

// The input that the answers would overwrite, by whatever names, if they would.
fn overwritten(
    rt: &HostRuntime,
    o: Options,
    answers: usize,
    capture: bool,
) -> Option<&'static [u8]> {
    if name_one_file(rt, answers, o.card) {
        Some(b"card")
    } else if name_one_file(rt, answers, o.input) {
        Some(name_of(capture))
    } else if o.seen.is_some_and(|seen| name_one_file(rt, answers, seen)) {
        Some(b"file of seen times")
    } else {
        None
    }
}

// Whether the answers would overwrite an input; if so, it is said which, and what was expected.
pub fn overwrites_input(rt: &HostRuntime, o: Options, capture: bool) -> bool {
    let Some(answers) = o.answers else {
        return false;
    };
    let Some(input) = overwritten(rt, o, answers, capture) else {
        return false;
    };
    name_file(rt, answers);
    complain(rt, b"the file for the answers is the ");
    complain(rt, input);
    complain(rt, b": expected a file that is neither the card nor the ");
    complain(rt, name_of(capture));
    if o.seen.is_some() {
        complain(rt, b" nor the seen times");
    }
    complain(rt, b"\n");
    true
}

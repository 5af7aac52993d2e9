// A file that is shown item by item, each in a line: records of a trace, entries of a capture.
use cli_io::failure::{Failure, after_printing};
use cli_io::input::{Input, Reading};
use cli_io::output::Output;
use cli_io::sink::Sink;
use cli_io::stop::Stop;
use std::fs::File;
use std::ops::ControlFlow;
use text_line::Page;

pub trait Shown {
    // Takes what was read, up to the end of an item at most, and puts the item's line once it is whole. An item that ends the showing
    // breaks off.
    fn show_next(&mut self, input: &mut Input<'_>, out: &mut Output<'_>) -> ControlFlow<()>;

    // The end of the file, perhaps within an item.
    fn show_rest(&mut self, out: &mut Output<'_>);

    // The last line.
    fn put_totals(&self, page: &mut Page<'_>);

    // Where the next byte is that was not yet taken.
    fn next_byte(&self) -> u64;

    // Says what is wrong with the file of argument i, if anything is.
    fn verdict(&self, rt: &HostRuntime, i: usize) -> Result<(), Stop>;
}

// A step: what was read is shown, or the next piece is read once what waits is written, or the file is at its end.
fn show_step<S: Shown>(
    shown: &mut S,
    input: &mut Input<'_>,
    out: &mut Output<'_>,
) -> ControlFlow<()> {
    if !input.unread().is_empty() {
        return shown.show_next(&mut *input, &mut *out);
    }
    match input.reading() {
        Reading::Goes => {
            let _ = out.flush();
            input.read_on();
            ControlFlow::Continue(())
        }
        Reading::Ended => {
            shown.show_rest(&mut *out);
            ControlFlow::Break(())
        }
        Reading::Failed(_) => ControlFlow::Break(()),
    }
}

// A proved loop has to end, and nothing says that a file does: it has more turns than any run uses up.
fn show_all<S: Shown>(shown: &mut S, input: &mut Input<'_>, out: &mut Output<'_>) {
    for _ in 0..u64::MAX {
        if show_step(&mut *shown, &mut *input, &mut *out).is_break() || out.written().is_err() {
            return;
        }
    }
}

// Shows a file; argument i names it.
pub fn show_file<S: Shown>(
    rt: &HostRuntime,
    file: &File,
    i: usize,
    shown: &mut S,
) -> Result<(), Stop> {
    let mut input = Input::new(file);
    let mut out = Output::new(Sink::Output(rt));
    show_all(&mut *shown, &mut input, &mut out);
    out.put(|page| shown.put_totals(page));
    out.end_line();
    let written = after_printing(rt, out.flush());
    if let Reading::Failed(failure) = input.reading() {
        failure.complain_read(rt, i, shown.next_byte());
        return Err(Stop::Unusable);
    }
    let verdict = shown.verdict(rt, i);
    written?;
    verdict
}

// `otsnebura pack HEX`: hex text with blanks and comments to raw bytes.
use cli_io::answers::Answers;
use cli_io::failure::after_printing;
use cli_io::files::{complain_line, name_file};
use cli_io::input::{Input, Reading};
use cli_io::sink::Sink;
use cli_io::stop::Stop;
use std::fs::File;
use std::ops::ControlFlow;
use text_hex::{Packing, Within};
use text_line::{LINE, Page};

// ---- The file

// How far a file is packed, and how many of its bytes were read.
#[derive(Clone, Copy)]
struct Work {
    packing: Packing,
    offset: u64,
}

impl Work {
    // The next piece of the file is read and packed, and its bytes are written: until a bad character, the end, or a failure.
    fn pack_piece(&mut self, input: &mut Input<'_>, out: &mut Answers<'_>) -> ControlFlow<()> {
        input.read_on();
        let text = input.unread();
        let packed = text_hex::pack(self.packing, text, &mut out.bytes);
        self.packing = packed.after;
        self.offset = self.offset.wrapping_add(text.len() as u64);
        out.wrote(packed.written);
        let written = out.flush();
        if self.packing.bad || input.reading() != Reading::Goes || written.is_err() {
            return ControlFlow::Break(());
        }
        ControlFlow::Continue(())
    }

    // A proved loop has to end, and nothing says that a file does: it has more turns than any run uses up.
    fn pack_all(&mut self, input: &mut Input<'_>, out: &mut Answers<'_>) {
        for _ in 0..u64::MAX {
            if self.pack_piece(&mut *input, &mut *out).is_break() {
                return;
            }
        }
    }
}

// ---- The end

// Where the text of the file that argument i names goes wrong, and what was expected there.
fn complain_text(rt: &HostRuntime, i: usize, p: Packing) {
    let mut room = [0u8; LINE];
    let mut line = Page::over(&mut room, 0);
    name_file(rt, i);
    line.put_named(b"line ", p.line);
    line.put_named(b", column ", p.column);
    line.put_either(
        matches!(p.within, Within::Byte(_)),
        b": expected the second hex digit of a byte",
        b": expected a hex digit, a blank, or # and a comment",
    );
    complain_line(rt, &line);
}

// Packs a file; argument i names it.
pub fn pack(rt: &HostRuntime, file: &File, i: usize) -> Result<(), Stop> {
    let mut input = Input::new(file);
    let mut out = Answers::new(Sink::Output(rt));
    let mut work = Work {
        packing: text_hex::start(),
        offset: 0,
    };
    work.pack_all(&mut input, &mut out);
    let written = after_printing(rt, out.written());
    if let Reading::Failed(failure) = input.reading() {
        failure.complain_read(rt, i, work.offset);
        return Err(Stop::Unusable);
    }
    written?;
    if !text_hex::is_whole(work.packing) {
        complain_text(rt, i, work.packing);
        return Err(Stop::Refused);
    }
    Ok(())
}

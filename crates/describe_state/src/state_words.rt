// The state of the bench in words: link, port bits, queue and slots.
#![tactic(auto, using(text_line::proofs::Putting::putting), unfolding(text_line::specs::Text::text_if, crate::specs::States::moment_text, crate::specs::States::link_text, crate::specs::States::bit_text, crate::specs::States::port_bits_text, crate::specs::States::port_control_text, crate::specs::States::queue_text, crate::specs::States::cell_text, crate::specs::States::queued_cell, crate::specs::States::queued_text, crate::specs::States::cause_text, crate::specs::States::pending_text, crate::specs::States::phase_text, crate::specs::States::slot_text))]

ghost use Rattle.std.specs.Prelude.{◌≡◌};
ghost use Rattle.text_line.specs.Page.{put};
ghost use Rattle.describe_state.specs.States.{moment_text, link_text, bit_text, port_bits_text, port_control_text, queue_text, cell_text, queued_cell, queued_text, cause_text, pending_text, phase_text, slot_text};

use bits::word_at;
use describe_records::record_words::{put_frs, put_signalling, put_switch};
use frs_queue::place;
use readiness::{Cause, Control, Dev, Phase};
use text_line::Page;
use times::Nanos;

// A moment, after its name.
fn put_moment(page: &mut Page<'_>, name: &[u8], moment: Nanos)
    ensures { page.new ≡ put (moment_text name.now moment) page.old }
{
    page.put_named(name, times::nanos_number(moment));
    page.put_text(b" ns");
}

// The clock and the link, and whether a DRS is owed.
pub fn put_link(page: &mut Page<'_>, dev: Dev)
    ensures { page.new ≡ put (link_text dev) page.old }
{
    let clock = dev.clock;
    put_moment(page, b"clock ", clock);
    page.put_text(b", link ");
    page.put_either(dev.link, b"up", b"down");
    page.put_if(dev.owed, b", a DRS is owed");
}

// A bit by its name.
fn put_bit(page: &mut Page<'_>, name: &[u8], bit: bool)
    ensures { page.new ≡ put (bit_text name.now bit) page.old }
{
    page.put_text(name);
    page.put_either(bit, b"1", b"0");
}

// The status bits of the port.
pub fn put_port_bits(page: &mut Page<'_>, dev: Dev)
    ensures { page.new ≡ put (port_bits_text dev) page.old }
{
    let queue = dev.queue;
    put_bit(page, b"Received ", queue.received);
    put_bit(page, b", Overflow ", queue.overflow);
    put_bit(page, b", DRS Received ", dev.drs_received);
}

// The control bits of the port.
pub fn put_port_control(page: &mut Page<'_>, control: Control)
    ensures { page.new ≡ put (port_control_text control) page.old }
{
    put_switch(page, b"CRS visibility ", control.visibility);
    put_switch(page, b", FRS interrupt ", control.frs_interrupt);
    put_signalling(page, control.signalling);
}

// The depth of the queue, and the greatest.
pub fn put_queue(page: &mut Page<'_>, depth: usize, most: usize)
    ensures { page.new ≡ put (queue_text depth most) page.old }
{
    page.put_named(b"queue depth ", depth as u64);
    page.put_named(b" of ", most as u64);
}

// The message in a queue cell.
pub fn put_cell(page: &mut Page<'_>, cell: u32)
    ensures { page.new ≡ put (cell_text cell) page.old }
{
    let id = (cell % 65536) as u16;
    let reason = (cell / 65536 % 16) as u8;
    put_frs(page, id, reason);
}

// The cell of the i-th oldest message of the queue that starts at cell `start`.
fn queued_cell(cells: &[u32], start: usize, i: usize) -> u32
    ensures { result ≡ queued_cell cells.now start i }
{
    if i < cells.len() {
        return word_at(cells, place(start, i, cells.len()));
    }
    0
}

// The i-th oldest message of that queue.
pub fn put_queued(page: &mut Page<'_>, cells: &[u32], start: usize, i: usize)
    ensures { page.new ≡ put (queued_text cells.now start i) page.old }
{
    put_cell(page, queued_cell(cells, start, i));
}

// What a Pending slot is starting after.
fn put_cause(page: &mut Page<'_>, cause: Cause)
    ensures { page.new ≡ put (cause_text cause) page.old }
{
    match cause {
        Cause::LinkUp => page.put_text(b" (link up)"),
        Cause::Flr(end) => {
            put_moment(page, b" (FLR, in progress until ", end);
            page.put_text(b")");
        }
        Cause::D3hot => page.put_text(b" (D3hot to D0)"),
    }
}

fn put_pending(page: &mut Page<'_>, cause: Cause, ready: Nanos)
    ensures { page.new ≡ put (pending_text cause ready) page.old }
{
    put_moment(page, b": Pending until ", ready);
    put_cause(page, cause);
}

fn put_phase(page: &mut Page<'_>, phase: Phase)
    ensures { page.new ≡ put (phase_text phase) page.old }
{
    match phase {
        Phase::Down => page.put_text(b": Down"),
        Phase::Pending(cause, ready) => put_pending(page, cause, ready),
        Phase::Ready => page.put_text(b": Ready"),
    }
}

// A slot's state, with its ready time where it is Pending.
pub fn put_slot(page: &mut Page<'_>, slot: usize, phase: Phase)
    ensures { page.new ≡ put (slot_text slot phase) page.old }
{
    page.put_named(b"slot ", slot as u64);
    put_phase(page, phase);
}

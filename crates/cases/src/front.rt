// The front of a case after its first byte: how much is lent, the bus number, the port's ID, the kind of card and 32 entries.
use bits::byte_at;
use readiness::{Setup, Slot, blank_slot};
use state_image::numbers::two_at;
use state_image::state::{is_yes, is_yes_or_no};

// How many bytes the front has: 11, and 13 for each entry.
pub const FRONT: usize = 427;

// The bytes of an entry.
const ENTRY: usize = 13;

// How much is lent: slot statuses, live words, default words and queue cells.
#[derive(Clone, Copy)]
pub struct Lengths {
    pub statuses: usize,
    pub live: usize,
    pub defaults: usize,
    pub cells: usize,
}

pub fn lengths_in(front: &[u8; FRONT]) -> Lengths {
    Lengths {
        statuses: usize::from(front[0]),
        live: usize::from(two_at(front, 1)),
        defaults: usize::from(two_at(front, 3)),
        cells: usize::from(two_at(front, 5)),
    }
}

// "Sends FRS" is 0 or 1; what is kept for later requests has its default: edition 1, V 0, no parent.
fn is_good_entry(entry: &[u8]) -> bool {
    is_yes_or_no(entry, 8)
        && byte_at(entry, 9) == 1
        && two_at(entry, 10) == 0
        && byte_at(entry, 12) == 0xFF
}

// At most 32 statuses are lent, the card is no conventional one (its byte is kept for a later request), and the entries are good.
pub fn is_good_front(front: &[u8; FRONT]) -> bool {
    front[0] <= 32 && front[10] == 0 && front[11..].chunks_exact(ENTRY).all(|e| is_good_entry(e))
}

fn entry_in(bytes: &[u8]) -> Slot {
    Slot {
        reset: times::code_of(two_at(bytes, 0)),
        dl_up: times::code_of(two_at(bytes, 2)),
        flr: times::code_of(two_at(bytes, 4)),
        d3hot: times::code_of(two_at(bytes, 6)),
        sends_frs: is_yes(bytes, 8),
    }
}

fn entries_in(front: &[u8; FRONT]) -> [Slot; 32] {
    let mut entries = [blank_slot(); 32];
    for (entry, bytes) in entries.iter_mut().zip(front[11..].chunks_exact(ENTRY)) {
        *entry = entry_in(bytes);
    }
    entries
}

pub fn setup_in(slots: u8, front: &[u8; FRONT]) -> Setup {
    Setup {
        slots: usize::from(slots),
        entries: entries_in(front),
        bus: front[7],
        port_id: two_at(front, 8),
    }
}

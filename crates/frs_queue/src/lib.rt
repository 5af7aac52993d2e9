// The queue of FRS messages at the root port: a ring over lent cells, with its two status bits and what a record counts.
#![tactic(auto)]

ghost use Rattle.std.specs.Prelude.{◌≡◌, ◌%◌, ◌≤◌, ◌<◌};
ghost use Rattle.frs_queue.specs.Queue.{Ring, ring, counted as counted_of, rises, place_of, cell_of, tally_queued, tally_dropped, arrives, removed, emptied, register_of};

// A Function Readiness Status message: the requester ID and the reason.
#[derive(Clone, Copy)]
pub struct Frs {
    pub id: u16,
    pub reason: u8,
}

// Where the queued messages lie in the ring of cells, and the port's status bits Received and Overflow.
#[derive(Clone, Copy)]
pub struct Queue {
    pub start: usize,
    pub depth: usize,
    pub received: bool,
    pub overflow: bool,
}

// What one record has brought so far: the interrupts raised for Received, Overflow and DRS Received; the FRS queued and dropped.
#[derive(Clone, Copy)]
pub struct Tally {
    pub received: bool,
    pub overflow: bool,
    pub drs: bool,
    pub queued: u8,
    pub dropped: u8,
}

// What an arrival leaves beside the cells.
#[derive(Clone, Copy)]
pub struct Arrival {
    pub queue: Queue,
    pub tally: Tally,
}

// One more; a count stops at 255.
fn counted(count: u8) -> u8
    ensures { result ≡ counted_of count 1 }
{
    count.saturating_add(1)
}

// Whether an interrupt is raised: it was before, or a bit goes from 0 to 1 with its interrupt enabled.
fn raised(already: bool, enabled: bool, bit: bool) -> bool
    ensures { result ≡ rises already enabled bit }
{
    already || enabled && !bit
}

// A cell's number modulo n; no division where it is one of the n, as it is in every queue that was not read from outside.
fn in_ring(start: usize, n: usize) -> usize
    requires { 0 < n }
    ensures { result ≡ start % n }
{
    if start < n { start } else { start % n }
}

// The cell of the message that stands k places behind the oldest, in a ring of n cells.
pub fn place(start: usize, k: usize, n: usize) -> usize
    requires { (0 < n) × (k ≤ n) }
    ensures value { result ≡ place_of n start k }
    ensures upper_bound { result < n }
{
    let first = in_ring(start, n);
    let room = n - first;
    if k < room { first + k } else { k - room }
}

// The value of a message's cell.
fn cell_value(frs: Frs) -> u32
    ensures { result ≡ cell_of frs }
{
    u32::from(frs.reason) * 65536 + u32::from(frs.id)
}

// The tally with one message more queued, where Received is set and was `received`.
fn tally_queued(tally: Tally, enabled: bool, received: bool) -> Tally
    ensures { result ≡ tally_queued enabled received tally }
{
    Tally {
        received: raised(tally.received, enabled, received),
        queued: counted(tally.queued),
        ..tally
    }
}

// The tally with one message more dropped, where Overflow is set and was `overflow`.
fn tally_dropped(tally: Tally, enabled: bool, overflow: bool) -> Tally
    ensures { result ≡ tally_dropped enabled overflow tally }
{
    Tally {
        overflow: raised(tally.overflow, enabled, overflow),
        dropped: counted(tally.dropped),
        ..tally
    }
}

// Kept: queue, tally and cells stand in three places of the bench, so that a struct of them would be made for this one call.
// An FRS arrives, with the FRS interrupt enabled or not: it is put at the end of the queue, or dropped where the queue is full.
#[tactic(auto, unfolding(crate::specs::Queue::arrives, crate::specs::Queue::queues, crate::specs::Queue::drops))]
pub fn arrive(queue: Queue, tally: Tally, enabled: bool, cells: &mut [u32], frs: Frs) -> Arrival
    ensures { ring cells.exit.now result ≡ arrives enabled frs (record { cells = cells.entry.now; queue = queue; tally = tally }) }
{
    let n = cells.len();
    let depth = queue.depth;
    if depth < n {
        let at = place(queue.start, depth, n);
        cells[at] = cell_value(frs);
        Arrival {
            queue: Queue {
                depth: depth + 1,
                received: true,
                ..queue
            },
            tally: tally_queued(tally, enabled, queue.received),
        }
    } else {
        Arrival {
            queue: Queue {
                overflow: true,
                ..queue
            },
            tally: tally_dropped(tally, enabled, queue.overflow),
        }
    }
}

// The oldest message is removed from a ring of n cells: start moves one on. On an empty queue nothing changes.
#[tactic(auto, unfolding(crate::specs::Queue::removed))]
pub fn remove(queue: Queue, n: usize) -> Queue
    ensures { result ≡ removed n queue }
{
    if queue.depth == 0 || n == 0 {
        return queue;
    }
    Queue {
        start: place(queue.start, 1, n),
        depth: queue.depth - 1,
        ..queue
    }
}

// The queue emptied: depth 0, start at cell 0.
pub fn empty(queue: Queue) -> Queue
    ensures { result ≡ emptied queue }
{
    Queue {
        start: 0,
        depth: 0,
        ..queue
    }
}

// The queue register: depth and the oldest cell, or 0.
#[tactic(auto, unfolding(crate::specs::Queue::register_of), using(crate::proofs::Places::low_bits))]
pub fn register(queue: Queue, cells: &[u32]) -> u32
    ensures { result ≡ register_of cells.now queue }
{
    let n = cells.len();
    if queue.depth == 0 || n == 0 {
        return 0;
    }
    let oldest = place(queue.start, 0, n);
    let shown = (queue.depth % 4096) as u64 * 1048576 + u64::from(cells[oldest]);
    (shown % 4294967296) as u32
}

// The slots' readiness: its types and their blank values, and in specs/ what starts a slot anew, which slots become Ready in which order, and
// what arrives at the root port then.
#![tactic(auto)]

ghost use Rattle.std.specs.Prelude.{◌≡◌, ◌<◌, get_or, replicate, None};
ghost use Rattle.bits.specs.Bits.{bit};
ghost use Rattle.readiness.specs.Blank.{blank_control, blank_queue, blank_dev, blank_slot, blank_setup};
ghost use Rattle.readiness.specs.Status.{down};
ghost use Rattle.readiness.specs.MadeReady.{moments_of, no_moments, with_moment, with_bit};

use frs_queue::{Queue, Tally};
use times::{Code, Nanos};

// What a Pending slot is starting after; an FLR with the end of its progress.
#[derive(Clone, Copy)]
pub enum Cause {
    LinkUp,
    Flr(Nanos),
    D3hot,
}

#[derive(Clone, Copy)]
pub enum Phase {
    Down,
    // The cause and the ready time.
    Pending(Cause, Nanos),
    Ready,
}

#[derive(Clone, Copy)]
pub struct Status {
    pub phase: Phase,
}

// A slot's entry in the set-up: its four times, and whether it sends FRS.
#[derive(Clone, Copy)]
pub struct Slot {
    pub reset: Code,
    pub dl_up: Code,
    pub flr: Code,
    pub d3hot: Code,
    pub sends_frs: bool,
}

// The set-up: how many slots the card has, their entries, the bus number and the root port's ID.
#[derive(Clone, Copy)]
pub struct Setup {
    pub slots: usize,
    pub entries: [Slot; 32],
    pub bus: u8,
    pub port_id: u16,
}

// The control bits of the root port: CRS software visibility, FRS interrupt enable, DRS signalling.
#[derive(Clone, Copy)]
pub struct Control {
    pub visibility: bool,
    pub frs_interrupt: bool,
    pub signalling: u8,
}

// The device, but for slot statuses, registers and queue cells.
#[derive(Clone, Copy)]
pub struct Dev {
    pub clock: Nanos,
    pub link: bool,
    pub owed: bool,
    pub drs_received: bool,
    pub control: Control,
    pub queue: Queue,
}

// The root port while a record runs: the device, and what the record has brought so far.
#[derive(Clone, Copy)]
pub struct RootPort {
    pub dev: Dev,
    pub tally: Tally,
}

// One slot that has settled: when it became Ready then, if it did.
#[derive(Clone, Copy)]
pub struct SlotSettled {
    pub status: Status,
    pub port: RootPort,
    pub made: Option<Nanos>,
}

// For each of 32 slots the moment, in nanoseconds, at which it was last made Ready; a bit of `made` says for each slot whether there is one.
// Kept: a caller lends any numbers here, also where there is no moment.
#[derive(Clone, Copy)]
pub struct Moments {
    pub made: u32,
    pub at_ns: [u64; 32],
}

// Whether a word has bit k.
#[tactic(auto, unfolding(bits::specs::Bits::bit))]
fn has_bit(word: u32, k: usize) -> bool
    requires { k < 32 }
    ensures { result ≡ bit word k }
{
    (word >> k) % 2 == 1
}

// A word with bit k set.
#[tactic(auto, using(crate::proofs::SlotMoments::with_bit_lem))]
fn with_bit(word: u32, k: usize) -> u32
    requires { k < 32 }
    ensures { result ≡ with_bit word k }
{
    word | (1u32 << k)
}

impl Moments {
    // The moment of a slot, if it was made Ready; a slot that isn't below 32 has none.
    #[tactic(auto, using(crate::proofs::SlotMoments::there, crate::proofs::SlotMoments::not_there, crate::proofs::SlotMoments::past_32))]
    pub fn moment(&self, slot: usize) -> Option<Nanos>
        ensures { result ≡ get_or (moments_of self.now) slot None }
    {
        if slot < 32 && has_bit(self.made, slot) {
            Some(times::nanos_of(self.at_ns[slot]))
        } else {
            None
        }
    }

    // A slot becomes Ready at this moment.
    pub fn note(&mut self, slot: usize, time: Nanos)
        requires { slot < 32 }
        ensures { self.new ≡ with_moment slot time self.old }
    {
        self.made = with_bit(self.made, slot);
        self.at_ns[slot] = times::nanos_number(time);
    }
}

// ---- Blank values: every number 0, every bit off, every slot Down

pub fn blank_control() -> Control
    ensures { result ≡ blank_control }
{
    Control {
        visibility: false,
        frs_interrupt: false,
        signalling: 0,
    }
}

pub fn blank_queue() -> Queue
    ensures { result ≡ blank_queue }
{
    Queue {
        start: 0,
        depth: 0,
        received: false,
        overflow: false,
    }
}

// Clock 0, link down, nothing owed, all port bits 0, the queue empty at cell 0.
pub fn blank_dev() -> Dev
    ensures { result ≡ blank_dev }
{
    Dev {
        clock: times::nanos_of(0),
        link: false,
        owed: false,
        drs_received: false,
        control: blank_control(),
        queue: blank_queue(),
    }
}

pub fn blank_slot() -> Slot
    ensures { result ≡ blank_slot }
{
    Slot {
        reset: times::code_of(0),
        dl_up: times::code_of(0),
        flr: times::code_of(0),
        d3hot: times::code_of(0),
        sends_frs: false,
    }
}

pub fn blank_setup() -> Setup
    ensures { result ≡ blank_setup }
{
    Setup {
        slots: 0,
        entries: [blank_slot(); 32],
        bus: 0,
        port_id: 0,
    }
}

pub fn all_down() -> [Status; 32]
    ensures { result ≡ replicate 32 down }
{
    [Status { phase: Phase::Down }; 32]
}

// No slot was made Ready.
pub fn no_moments() -> Moments
    ensures { result ≡ no_moments }
{
    Moments {
        made: 0,
        at_ns: [0; 32],
    }
}

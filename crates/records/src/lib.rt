// The thirteen records and the port state: their types, and in specs/ what each record does to the device and how it is answered.
#![tactic(auto)]

ghost use Rattle.std.specs.Prelude.{◌≡◌};
ghost use Rattle.records.specs.Blank.{blank_port};

use frs_queue::{Queue, Tally};
use messages::Message;
use readiness::{Cause, Dev, Setup, Slot, Status};
use times::Nanos;

// Whom a configuration request addresses: the slot, the word and the byte enables.
#[derive(Clone, Copy)]
pub struct Request {
    pub slot: usize,
    pub word: usize,
    pub enables: u8,
}

// A record, taken from its bytes.
#[derive(Clone, Copy)]
pub enum Record {
    // 01: advance clock, by so many nanoseconds.
    Advance(Nanos),
    // 02: configuration read.
    Read(Request),
    // 03: configuration write, and its data.
    Write(Request, u32),
    // 04: message; none, if it is no readiness message.
    Message(Option<Message>),
    // 05, 06, 07.
    LinkUp,
    LinkDown,
    ColdReset,
    // 08, 09: read queue register, remove oldest.
    ReadQueue,
    RemoveOldest,
    // 0A: clear status bits where 1.
    ClearBits(u8),
    // 0B: the control byte.
    Control(u8),
    // 0C: hardware sets bits: the slot, the word and the mask.
    HardwareSet(usize, usize, u32),
    // 0D: read the three status bits.
    ReadBits,
    // Kept: `records/Device.device` and the theorem of `OnBytes` run what `decode` makes of any bytes.
    // No such kind: feed runs none of these.
    NoKind,
}

// How a record is answered, with its status.
#[derive(Clone, Copy)]
pub enum Completion {
    Done = 0,
    // CRS shown.
    CrsShown = 16,
    // CRS, to be re-issued.
    CrsRetry = 17,
    // Unsupported.
    Unsupported = 18,
    // No readiness message.
    NoReadinessMessage = 19,
    // No such slot.
    NoSlot = 20,
    // Word above 63.
    NoWord = 21,
    // Clock would pass 10^15.
    ClockEnd = 22,
    // Not as the link or the slot stands.
    WrongState = 23,
    // Enables above 15, a control byte above 15, or signalling 3.
    BadValue = 24,
}

// An answer: the completion, what the record brought, and the data.
#[derive(Clone, Copy)]
pub struct Reply {
    pub completion: Completion,
    pub tally: Tally,
    pub data: u32,
}

// How a request to a slot that isn't Ready is answered while it is starting: shown by the vendor ID 0001h; or to be re-issued, since
// visibility is off, or since it is no read of the whole vendor ID.
#[derive(Clone, Copy)]
pub enum Crs {
    Shown,
    VisibilityOff,
    NotVendorId,
}

// Where a request goes, and why: the first that applies.
#[derive(Clone, Copy)]
pub enum Route {
    NoSlot,
    NoWord,
    BadEnables,
    LinkDown,
    // With its end.
    FlrInProgress(Nanos),
    // With the cause, the ready time, and how it is shown.
    Starting(Cause, Nanos, Crs),
    Access,
}

// The part of the state that a record touches.
#[derive(Clone, Copy)]
pub enum Part {
    OneSlot(usize),
    PortAlone,
    WholeCard,
}

// What a record leaves that touches one slot, beside the lent slices, and when it made that slot Ready, if it did.
#[derive(Clone, Copy)]
pub struct SlotDone {
    pub dev: Dev,
    pub status: Status,
    pub reply: Reply,
    pub made: Option<Nanos>,
}

// What a record leaves that touches no slot.
#[derive(Clone, Copy)]
pub struct PortDone {
    pub dev: Dev,
    pub reply: Reply,
}

// What an FRS leaves that arrives by a message.
#[derive(Clone, Copy)]
pub struct QueueDone {
    pub queue: Queue,
    pub reply: Reply,
}

// The port state: the device's part, the bytes of an incomplete record, how many they are, and whether the trace is broken.
#[derive(Clone, Copy)]
pub struct Port {
    pub dev: Dev,
    pub carried: [u8; 16],
    pub carried_len: usize,
    pub broken: bool,
}

// The blank port: nothing carried or broken.
pub fn blank_port() -> Port
    ensures { result ≡ blank_port }
{
    Port {
        dev: readiness::blank_dev(),
        carried: [0; 16],
        carried_len: 0,
        broken: false,
    }
}

// A trace that is fed: what goes from one call of the bench to the next.
ghost use Rattle.std.specs.Prelude.{◌≡◌, cond, ◌+◌, ◌-◌, ◌%◌, ◌^◌, eqb, ◌||◌, Some, slice_index};
ghost use Rattle.trace.specs.Format.{size_of};
ghost use Rattle.cli_io.specs.Faults.{fault_of};
ghost use Rattle.cli_io.specs.declared.fault.Fault.TheVariants.{NoKind};

use cli_io::fault::Fault;
use decode::gathering::size_of;
use feed::Fed;
use readiness::Status;
use records::Port;
use set_up::SetUp;

// The bench, and how far the trace is: the last call's number and counts, the byte that it stopped at, and all bytes consumed and
// records run.
#[derive(Clone, Copy)]
pub struct Session {
    // Kept: the number of a call is the papers', and is printed.
    pub number: u8,
    pub consumed: usize,
    pub written: usize,
    // Kept: any byte, with no meaning beside the number.
    pub stopped_at: u8,
    pub offset: u64,
    pub records: u64,
    pub port: Port,
    pub statuses: [Status; 32],
}

impl Session {
    // After a set-up.
    pub fn begin(made: SetUp) -> Session
        ensures { result.port ≡ made.port }
    {
        let statuses = made.statuses;
        Session {
            number: made.number,
            consumed: 0,
            written: 0,
            stopped_at: 0,
            offset: 0,
            records: 0,
            port: made.port,
            statuses,
        }
    }

    // After a call; `stopped_at` is the byte after those that it consumed.
    pub fn after(self, fed: Fed, stopped_at: u8) -> Session
        ensures offset_value { result.offset ≡ (self.offset + fed.consumed) % 2 ^ 64 }
        ensures port_value { result.port ≡ fed.port }
    {
        let statuses = fed.statuses;
        Session {
            number: fed.number,
            consumed: fed.consumed,
            written: fed.written,
            stopped_at,
            offset: self.offset.wrapping_add(fed.consumed as u64),
            records: self.records.wrapping_add((fed.written / 8) as u64),
            port: fed.port,
            statuses,
        }
    }

    // Whether more can be fed: after 0, and after 30, which wants room for answers.
    pub fn goes_on(&self) -> bool
        ensures { result ≡ (eqb self.now.number 0 || eqb self.now.number 30) }
    {
        self.number == 0 || self.number == 30
    }

    // Where the record that is fed next, or carried, starts.
    pub fn record_offset(&self) -> u64
        ensures { result ≡ self.now.offset - self.now.port.carried_len }
    {
        self.offset.saturating_sub(self.port.carried_len as u64)
    }

    // The byte that is no kind, or the record that is cut off, if there is either.
    pub fn fault(&self) -> Option<Fault>
        ensures { result ≡ cond (eqb self.now.number 31) (Some (NoKind self.now.stopped_at))
            (fault_of (slice_index self.now.port.carried 0) self.now.port.carried_len (size_of (slice_index self.now.port.carried 0))) }
    {
        if self.number == 31 {
            Some(Fault::NoKind {
                kind: self.stopped_at,
            })
        } else {
            let kind = self.port.carried[0];
            Fault::of(kind, self.port.carried_len, size_of(kind))
        }
    }

    // Where that is.
    pub fn fault_offset(&self) -> u64
        ensures { result ≡ cond (eqb self.now.number 31) self.now.offset (self.now.offset - self.now.port.carried_len) }
    {
        if self.number == 31 {
            self.offset
        } else {
            self.record_offset()
        }
    }
}

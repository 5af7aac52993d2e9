// The end of a call: the bytes that it carries on, and what calls one after the other come to.
ghost use Rattle.std.specs.Prelude.{◌≡◌, ◌+◌, ◌≤◌, ◌<◌};
ghost use Rattle.demand3.specs.Held.{opened};
ghost use Rattle.feed.specs.inner.Calls.{carries_on};

use crate::FedPort;
use decode::gathering::{ending, first_bytes};
use readiness::Dev;
use records::{Port, blank_port};

// THE END OF A CALL, which completes no record more: what is consumed of the input joins the carried bytes.
pub fn carry_on(port: Port, input: &[u8]) -> FedPort
    requires { port.carried_len ≤ 16 }
    ensures { result ≡ carries_on port input.now }
{
    let len = port.carried_len;
    let end = ending(&port.carried, len, input);
    FedPort {
        number: end.number,
        consumed: end.count.saturating_sub(len),
        written: 0,
        port: Port {
            dev: port.dev,
            carried: first_bytes(&port.carried, len, input, end.count),
            carried_len: end.count,
            broken: end.number == 31,
        },
    }
}

// Two calls, one after the other: the first consumed and wrote so much.
pub fn after_first(consumed: usize, written: usize, rest: FedPort) -> FedPort
    requires { (consumed + rest.consumed < 18446744073709551616) × (written + rest.written < 18446744073709551616) }
    ensures { result ≡ record { number = rest.number; consumed = consumed + rest.consumed; written = written + rest.written; port = rest.port } }
{
    FedPort {
        consumed: consumed + rest.consumed,
        written: written + rest.written,
        ..rest
    }
}

// A port with nothing carried.
pub fn nothing_carried(dev: Dev) -> Port
    ensures { result ≡ opened dev }
{
    Port {
        dev,
        ..blank_port()
    }
}

// A call that is refused: nothing changes.
pub fn refused(number: u8, port: Port) -> FedPort
    ensures { result ≡ record { number = number; consumed = 0; written = 0; port = port } }
{
    FedPort {
        number,
        consumed: 0,
        written: 0,
        port,
    }
}

// Messages at the root port: an FRS or a DRS arrives, and the DRS that is owed is told.
ghost use Rattle.std.specs.Prelude.{◌≡◌, not, ◌&&◌, ◌||◌, cond, List, [], ◌∷◌, ℕ, eqb};
ghost use Rattle.readiness.specs.Root.{root, frs_arrive, drs_set, drs_arrives, nothing_owed};

use frs_queue::Frs;
use readiness::{Dev, RootPort};

// An FRS arrives.
pub fn frs_arrives(port: RootPort, cells: &mut [u32], frs: Frs) -> RootPort
    ensures { root cells.new result ≡ frs_arrive (frs ∷ []) (root cells.old port) }
{
    let interrupt = port.dev.control.frs_interrupt;
    let arrival = frs_queue::arrive(port.dev.queue, port.tally, interrupt, cells, frs);
    RootPort {
        dev: Dev {
            queue: arrival.queue,
            ..port.dev
        },
        tally: arrival.tally,
    }
}

// Whether the DRS interrupt is raised: it was before, or DRS Received goes from 0 to 1 with signalling 1.
fn drs_raised(already: bool, received: bool, signalling: u8) -> bool
    ensures { result ≡ (already || (not received && eqb signalling 1)) }
{
    already || (!received && signalling == 1)
}

// DRS Received is set.
fn drs_set(port: RootPort) -> RootPort
    ensures { (cells : List ℕ) → root cells result ≡ drs_set (root cells port) }
{
    let raised = drs_raised(
        port.tally.drs,
        port.dev.drs_received,
        port.dev.control.signalling,
    );
    let mut p = port;
    p.dev.drs_received = true;
    p.tally.drs = raised;
    p
}

// A DRS is received: it is signalled if DRS Received went from 0 to 1.
pub fn drs_arrives(port: RootPort, cells: &mut [u32], port_id: u16) -> RootPort
    ensures { root cells.new result ≡ drs_arrives port_id (root cells.old port) }
{
    let p = drs_set(port);
    if port.dev.drs_received {
        return p;
    }
    if port.dev.control.signalling == 2 {
        let frs = Frs {
            id: port_id,
            reason: 1,
        };
        frs_arrives(p, cells, frs)
    } else {
        p
    }
}

// The DRS that is owed is received, and nothing is owed.
fn drs_told(port: RootPort, cells: &mut [u32], port_id: u16) -> RootPort
    ensures { root cells.new result ≡ nothing_owed (drs_arrives port_id (root cells.old port)) }
{
    let mut p = drs_arrives(port, cells, port_id);
    p.dev.owed = false;
    p
}

// The DRS is received if one is owed and no slot waits.
pub fn tell(port: RootPort, cells: &mut [u32], port_id: u16, waits: bool) -> RootPort
    ensures { root cells.new result ≡ cond (port.dev.owed && not waits) (nothing_owed (drs_arrives port_id (root cells.old port))) (root cells.old port) }
{
    if port.dev.owed && !waits {
        drs_told(port, cells, port_id)
    } else {
        port
    }
}

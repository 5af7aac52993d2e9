// What goes from one operation of a case to the next.
use capture::Replay;
use readiness::{Moments, Setup, Status};
use records::Port;

// The set-up, the port, the statuses, of which the first `lent` are lent, the state of the replay, the moments that it keeps, and the words and cells
// that are lent.
#[derive(Drop)]
pub struct State<'a> {
    pub setup: Setup,
    pub port: Port,
    pub lent: usize,
    pub statuses: [Status; 32],
    pub replay: Replay,
    pub moments: Moments,
    pub live: &'a mut [u32],
    pub defaults: &'a [u32],
    pub cells: &'a mut [u32],
}

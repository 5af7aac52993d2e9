// The state of a replay.
// Kept in this file: a caller lends any numbers here, and a call refuses those that don't match with 5, so they have no narrower types.
#![tactic(auto)]

ghost use Rattle.std.specs.Prelude.{◌≡◌};
ghost use Rattle.capture.specs.Lent.{earlier_of};

use ticks::Stamp;

// The state of a replay, from call to call. `begun`: some record has been taken, and `earlier` is the stamp of the last one; else `earlier` says
// nothing. The first `stamp_len` bytes of `stamp` are those of the stamp in hand; `answered` of its advances are answered. `ended` is 0, or the
// number that ended the replay, 32 or 33.
#[derive(Clone, Copy)]
pub struct Replay {
    pub begun: bool,
    pub earlier: Stamp,
    pub stamp_len: usize,
    pub stamp: [u8; 4],
    pub answered: u8,
    pub ended: u8,
}

impl Replay {
    // The stamp of the last record that was taken, if one was.
    pub fn before(self) -> Option<Stamp>
        ensures { result ≡ earlier_of self }
    {
        if self.begun { Some(self.earlier) } else { None }
    }
}

// Whether the state of a replay matches the port's carried bytes and the advances due.
ghost use Rattle.std.specs.Prelude.{◌≡◌, ◌&&◌, ◌≤◌, take};
ghost use Rattle.capture.specs.Replay.{end_fits, matches as matches_carried};
ghost use Rattle.capture.specs.Lent.{progress_in, stamp_fits};

use crate::advancing::{due_of, goes_back};
use capture::Replay;

// Ended is 0; or 32, where the recorder went back, or 33, where it did not, with all 4 bytes of the stamp.
#[tactic(auto, using(crate::proofs::Moves::bytes_there), unfolding(capture::specs::Replay::end_fits))]
fn end_fits(r: Replay) -> bool
    requires { r.stamp_len ≤ 4 }
    ensures { result ≡ end_fits (progress_in r) }
{
    if r.ended == 0 {
        true
    } else if r.stamp_len != 4 {
        false
    } else if goes_back(r) {
        r.ended == 32
    } else {
        r.ended == 33
    }
}

// It matches where the first `len` bytes of `carried` are carried.
#[tactic(auto, using(crate::proofs::Fits::too_long, crate::proofs::Fits::between_records, crate::proofs::Fits::in_record, crate::proofs::Dues::dues_held))]
pub fn matches(carried: [u8; 16], len: usize, r: Replay) -> bool
    ensures { result ≡ (stamp_fits r && matches_carried (take len carried) (progress_in r)) }
{
    if r.stamp_len > 4 {
        false
    } else if len == 0 {
        r.answered <= due_of(r).count() && end_fits(r)
    } else {
        r.before().is_some()
            && r.stamp_len == 0
            && r.answered == 0
            && r.ended == 0
            && carried[0] != 1
    }
}

// The moments that a replay keeps as bytes, nine for each of 32 slots: whether there is one, and when. Seen times have the same layout.
ghost use Rattle.std.specs.Prelude.{◌≡◌, ◌<◌};
ghost use Rattle.std.proofs.lemmas.List.Edits.{sets};
ghost use Rattle.readiness.specs.MadeReady.{moments_of};
ghost use Rattle.replay_image.specs.Moments.{moment_at, moment_bytes, moments_bytes, good_moments, moments_read};

use readiness::{Moments, no_moments};
use state_image::numbers::{eight_at, put, put_eight};
use state_image::state::{is_yes, is_yes_or_no};
use times::Nanos;

// How many bytes they have.
pub const MOMENTS_IMAGE: usize = 288;

// ---- Writing

// A moment, from an index on.
// Kept: `bytes` and `at`, and `at < 65536`, as in `state_image`: the caller lends the image, and adding to an index needs the limit.
fn put_moment(bytes: &mut [u8], at: usize, moment: Option<Nanos>)
    requires { at < 65536 }
    ensures { bytes.new ≡ sets bytes.old at (moment_bytes moment) }
{
    match moment {
        None => {
            put(&mut *bytes, at, 0);
            put_eight(bytes, at + 1, 0);
        }
        Some(time) => {
            put(&mut *bytes, at, 1);
            put_eight(bytes, at + 1, times::nanos_number(time));
        }
    }
}

// The moments of 32 slots, at the front.
pub fn put_moments(bytes: &mut [u8], m: Moments)
    ensures { bytes.new ≡ sets bytes.old 0 (moments_bytes (moments_of m)) }
{
    for i in 0..32 {
        put_moment(&mut *bytes, 9 * i, m.moment(i));
    }
}

// ---- Reading

// Each slot says yes or no.
pub fn are_good_moments(bytes: &[u8]) -> bool
    ensures { result ≡ good_moments bytes.now }
{
    for i in 0..32 {
        if !is_yes_or_no(bytes, 9 * i) {
            return false;
        }
    }
    true
}

// A slot's moment; when, where there is none, is ignored.
// Kept: `slot < 32` is asked by this one function, for its one call in a loop over 32 slots.
fn moment_at(bytes: &[u8], slot: usize) -> Option<Nanos>
    requires { slot < 32 }
    ensures { result ≡ moment_at slot bytes.now }
{
    if is_yes(bytes, 9 * slot) {
        Some(times::nanos_of(eight_at(bytes, 9 * slot + 1)))
    } else {
        None
    }
}

// The moments of 32 slots.
pub fn moments_in(bytes: &[u8]) -> Moments
    ensures { moments_of result ≡ moments_read bytes.now }
{
    let mut m = no_moments();
    for slot in 0..32 {
        if let Some(time) = moment_at(bytes, slot) {
            m.note(slot, time);
        }
    }
    m
}

// The state of a replay as bytes, in the layout of the case stream.
#![tactic(auto)]

pub mod moments; // the moments that it keeps

ghost use Rattle.std.specs.Prelude.{◌≡◌};
ghost use Rattle.std.proofs.lemmas.List.Edits.{sets};
ghost use Rattle.state_layout.specs.Image.{up_to};
ghost use Rattle.replay_image.specs.Image.{earlier_number, replay_bytes, is_good, earlier_in, stamp_bytes_in, replay_in};

use capture::Replay;
use state_image::numbers::{byte_at, four_at, put, put_bool, put_four};
use state_image::state::{is_yes, is_yes_or_no, shown};
use ticks::Stamp;

// How many bytes an image has.
pub const REPLAY_IMAGE: usize = 12;

// The bytes of a stamp, and 0 past the count.
fn up_to(count: usize, stamp: [u8; 4]) -> [u8; 4]
    ensures { result ≡ up_to count stamp }
{
    [
        shown(0, count, stamp[0]),
        shown(1, count, stamp[1]),
        shown(2, count, stamp[2]),
        shown(3, count, stamp[3]),
    ]
}

// ---- Writing

// The earlier stamp; 0 where there is none.
fn earlier_number(r: Replay) -> u64
    ensures { result ≡ earlier_number r }
{
    match r.before() {
        Some(stamp) => u64::from(ticks::stamp_number(stamp)),
        None => 0,
    }
}

// Four bytes, from the seventh on.
fn put_stamp(bytes: &mut [u8], stamp: [u8; 4])
    ensures { bytes.new ≡ sets bytes.old 6 stamp }
{
    put(&mut *bytes, 6, stamp[0]);
    put(&mut *bytes, 7, stamp[1]);
    put(&mut *bytes, 8, stamp[2]);
    put(&mut *bytes, 9, stamp[3]);
}

// The replay's bytes, at the front.
pub fn put_replay(bytes: &mut [u8], r: Replay)
    ensures { bytes.new ≡ sets bytes.old 0 (replay_bytes r) }
{
    let stamp = r.stamp;
    put_bool(&mut *bytes, 0, r.before().is_some());
    put_four(&mut *bytes, 1, earlier_number(r));
    put(&mut *bytes, 5, (r.stamp_len % 256) as u8);
    put_stamp(&mut *bytes, up_to(r.stamp_len, stamp));
    put(&mut *bytes, 10, r.answered);
    put(&mut *bytes, 11, r.ended);
}

// ---- Reading

// Whether there is an earlier stamp is yes or no; any other byte may be lent.
pub fn is_good_image(bytes: &[u8]) -> bool
    ensures { result ≡ is_good bytes.now }
{
    is_yes_or_no(bytes, 0)
}

// An earlier stamp is ignored where there is none.
fn earlier_in(bytes: &[u8]) -> Option<Stamp>
    ensures { result ≡ earlier_in bytes.now }
{
    if is_yes(bytes, 0) {
        Some(ticks::stamp_of(four_at(bytes, 1)))
    } else {
        None
    }
}

// The stamp's bytes; those past the count are ignored.
fn stamp_bytes_in(bytes: &[u8]) -> [u8; 4]
    ensures { result ≡ stamp_bytes_in bytes.now }
{
    let stamp = [
        byte_at(bytes, 6),
        byte_at(bytes, 7),
        byte_at(bytes, 8),
        byte_at(bytes, 9),
    ];
    up_to(usize::from(byte_at(bytes, 5)), stamp)
}

// The replay's state.
pub fn replay_in(bytes: &[u8]) -> Replay
    ensures { result ≡ replay_in bytes.now }
{
    let earlier = earlier_in(bytes);
    Replay {
        begun: earlier.is_some(),
        earlier: earlier.unwrap_or(ticks::stamp_of(0)),
        stamp_len: usize::from(byte_at(bytes, 5)),
        stamp: stamp_bytes_in(bytes),
        answered: byte_at(bytes, 10),
        ended: byte_at(bytes, 11),
    }
}

// A capture that is replayed: what goes from one call of replay to the next.
ghost use Rattle.std.specs.Prelude.{◌≡◌};
ghost use Rattle.cli_replay.specs.Sessions.{carried_of, stamp_offset, kind_offset, records_run, advances_run, owes_advance, stamp_in_hand, fault_at_kind, fault_at_end, fault_of};

use crate::counting::{Kinds, no_kinds};
use capture::Replay;
use capture_lines::CaptureFault;
use cli_run::session::Session;
use decode::gathering::size_of;
use describe_capture::finding::{end_fault, kind_fault};
use describe_capture::stamp_words::advance_count;
use readiness::{Moments, no_moments};
use replay_state::stamps::stamp_in;
use ticks::{Stamp, difference};

// The bench, and how far the file is, as in a run; the replay's state; when it last made each slot Ready; and the kind bytes.
#[derive(Clone, Copy)]
pub struct ReplaySession {
    pub session: Session,
    pub replay: Replay,
    pub moments: Moments,
    pub kinds: Kinds,
}

// After a set-up.
pub fn begin_replay(session: Session) -> ReplaySession
    ensures { result.session ≡ session }
{
    ReplaySession {
        session,
        replay: replay_state::stamps::fresh(),
        moments: no_moments(),
        kinds: no_kinds(),
    }
}

// ---- Where it stands

// How many bytes of a record are in hand.
pub fn carried_of(s: ReplaySession) -> usize
    ensures { result ≡ carried_of s }
{
    s.session.port.carried_len
}

// Where the stamp starts that is taken next, or in part.
#[tactic(auto, unfolding(crate::specs::Sessions::stamp_offset))]
pub fn stamp_offset(s: ReplaySession) -> u64
    ensures { result ≡ stamp_offset s }
{
    s.session.offset.saturating_sub(s.replay.stamp_len as u64)
}

// Where the kind byte is of the record that is carried, or comes next.
#[tactic(auto, unfolding(crate::specs::Sessions::kind_offset))]
pub fn kind_offset(s: ReplaySession) -> u64
    ensures { result ≡ kind_offset s }
{
    let carried = carried_of(s);
    if carried > 0 {
        s.session.offset.saturating_sub(carried as u64)
    } else {
        stamp_offset(s).wrapping_add(4)
    }
}

// How many records have run, and how many advances.
#[tactic(auto, unfolding(crate::specs::Sessions::records_run))]
pub fn records_run(s: ReplaySession) -> u64
    ensures { result ≡ records_run s }
{
    let begun = s.kinds.begun;
    if carried_of(s) > 0 {
        begun.saturating_sub(1)
    } else {
        begun
    }
}

#[tactic(auto, unfolding(crate::specs::Sessions::advances_run))]
pub fn advances_run(s: ReplaySession) -> u64
    ensures { result ≡ advances_run s }
{
    s.session.records.saturating_sub(records_run(s))
}

// Whether the next answer is that of an advance, before this stamp's record.
#[tactic(auto, unfolding(crate::specs::Sessions::owes_advance))]
pub fn owes_advance(s: ReplaySession, stamp: Stamp) -> bool
    ensures { result ≡ owes_advance s stamp }
{
    match s.replay.before() {
        Some(earlier) => {
            let due = advance_count(difference(earlier, stamp));
            carried_of(s) == 0 && usize::from(s.replay.answered) < due
        }
        None => false,
    }
}

// ---- What is wrong at the end

#[tactic(auto, unfolding(crate::specs::Sessions::fault_at_kind))]
fn fault_at_kind(s: ReplaySession) -> Option<CaptureFault>
    ensures { result ≡ fault_at_kind s }
{
    let replay = s.replay;
    let kind = s.session.stopped_at;
    let stamp = stamp_in(replay.stamp);
    kind_fault(replay.before(), stamp, kind, size_of(kind))
}

// The stamp of what is in hand: of a record, or else the stamp itself.
#[tactic(auto, unfolding(crate::specs::Sessions::stamp_in_hand))]
fn stamp_in_hand(s: ReplaySession) -> Stamp
    ensures { result ≡ stamp_in_hand s }
{
    if carried_of(s) > 0 {
        s.replay.earlier
    } else {
        stamp_in(s.replay.stamp)
    }
}

#[tactic(auto, unfolding(crate::specs::Sessions::fault_at_end))]
fn fault_at_end(s: ReplaySession) -> Option<CaptureFault>
    ensures { result ≡ fault_at_end s }
{
    let port = s.session.port;
    let kind = port.carried[0];
    end_fault(
        stamp_in_hand(s),
        s.replay.stamp_len,
        kind,
        port.carried_len,
        size_of(kind),
    )
}

// What ended the replay early, if anything did: 31, 32 or 33 at a kind byte, or the end of the file.
#[tactic(auto, unfolding(crate::specs::Sessions::fault_of))]
pub fn fault_of(s: ReplaySession) -> Option<CaptureFault>
    ensures { result ≡ fault_of s }
{
    if s.session.number > 30 {
        fault_at_kind(s)
    } else {
        fault_at_end(s)
    }
}

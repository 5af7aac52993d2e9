// A state as bytes: the port, then the lent statuses. (The live words and the cells follow, as words.)
ghost use Rattle.std.specs.Prelude.{◌≡◌, cond, ◌+◌, ◌*◌, ◌<◌, ◌≤◌, ltb, take, drop};
ghost use Rattle.std.proofs.lemmas.List.Edits.{sets};
ghost use Rattle.bits.specs.Widths.{at_most};
ghost use Rattle.state_layout.specs.Image.{single_bytes, dev_bytes, up_to, port_bytes, phase_byte, cause_number, cause_byte, ready_time, end_number, flr_end, status_bytes, statuses_bytes, state_bytes};
ghost use Rattle.state_layout.specs.Reading.{yes_or_no, yes, good_port, good_status, good_statuses, is_good, control_in, queue_in, dev_in, bytes_from, port_in, cause_in, phase_in, status_in, statuses_in_bytes};

use crate::numbers::{byte_at, eight_at, put, put_bool, put_eight, put_two, two_at};
use frs_queue::Queue;
use readiness::{Cause, Control, Dev, Phase, Status, all_down};
use records::Port;
use times::Nanos;

// The port's 46 bytes, and 27 for each lent status.
pub fn image_size(lent: usize) -> usize
    ensures value { result ≡ 46 + 27 * at_most lent 32 }
    ensures upper_bound { result ≤ 910 }
{
    46 + 27 * lent.min(32)
}

// ---- Reading

// A yes/no byte is 0 or 1.
pub fn is_yes_or_no(bytes: &[u8], at: usize) -> bool
    ensures { result ≡ yes_or_no at bytes.now }
{
    byte_at(bytes, at) <= 1
}

pub fn is_yes(bytes: &[u8], at: usize) -> bool
    ensures { result ≡ yes at bytes.now }
{
    byte_at(bytes, at) == 1
}

// No moment of the last reset is kept; link, owed, Received, Overflow, DRS Received, visibility, FRS interrupt and broken.
fn is_good_port(bytes: &[u8]) -> bool
    ensures { result ≡ good_port bytes.now }
{
    (eight_at(bytes, 8) == 0)
        & is_yes_or_no(bytes, 16)
        & is_yes_or_no(bytes, 17)
        & is_yes_or_no(bytes, 18)
        & is_yes_or_no(bytes, 19)
        & is_yes_or_no(bytes, 20)
        & is_yes_or_no(bytes, 21)
        & is_yes_or_no(bytes, 22)
        & is_yes_or_no(bytes, 45)
}

// A phase is at most 2, a cause at most 3, a Pending slot has one, and no slot has a set of children.
// Kept: here, in status_in and in put_status `at < 65536` is what adding to an index needs; each is called once, in a loop over 32 slots that shows it.
fn is_good_status(bytes: &[u8], at: usize) -> bool
    requires { at < 65536 }
    ensures { result ≡ good_status (drop at bytes.now) }
{
    let phase = byte_at(bytes, at);
    let cause = byte_at(bytes, at + 1);
    let set = byte_at(bytes, at + 18);
    (phase <= 2) & (cause <= 3) & ((phase != 1) | (cause != 0)) & (set == 0)
}

fn are_good_statuses(bytes: &[u8]) -> bool
    ensures { result ≡ good_statuses 32 (drop 46 bytes.now) }
{
    for i in 0..32 {
        if !is_good_status(bytes, 46 + 27 * i) {
            return false;
        }
    }
    true
}

// No byte is out of its range; the bytes of statuses that are not lent are 0.
pub fn is_good_image(bytes: &[u8]) -> bool
    ensures { result ≡ is_good bytes.now }
{
    is_good_port(bytes) & are_good_statuses(bytes)
}

fn control_in(bytes: &[u8]) -> Control
    ensures { result ≡ control_in bytes.now }
{
    Control {
        visibility: is_yes(bytes, 21),
        frs_interrupt: is_yes(bytes, 22),
        signalling: byte_at(bytes, 23),
    }
}

fn queue_in(bytes: &[u8]) -> Queue
    ensures { result ≡ queue_in bytes.now }
{
    Queue {
        start: usize::from(two_at(bytes, 24)),
        depth: usize::from(two_at(bytes, 26)),
        received: is_yes(bytes, 18),
        overflow: is_yes(bytes, 19),
    }
}

fn dev_in(bytes: &[u8]) -> Dev
    ensures { result ≡ dev_in bytes.now }
{
    Dev {
        clock: times::nanos_of(eight_at(bytes, 0)),
        link: is_yes(bytes, 16),
        owed: is_yes(bytes, 17),
        drs_received: is_yes(bytes, 20),
        control: control_in(bytes),
        queue: queue_in(bytes),
    }
}

fn carried_in(bytes: &[u8]) -> [u8; 16]
    ensures { result ≡ bytes_from 16 29 bytes.now }
{
    let mut carried = [0u8; 16];
    for i in 0..16 {
        carried[i] = byte_at(bytes, 29 + i);
    }
    carried
}

pub fn port_in(bytes: &[u8]) -> Port
    ensures { result ≡ port_in bytes.now }
{
    Port {
        dev: dev_in(bytes),
        carried: carried_in(bytes),
        carried_len: usize::from(byte_at(bytes, 28)),
        broken: is_yes(bytes, 45),
    }
}

// Kept: no TryFrom, since any byte may be lent: `state_layout`'s `cause_in` and `phase_in` read every byte that stands for no other as D3hot, and as Ready.
fn cause_of(cause: u8, end: Nanos) -> Cause
    ensures { result ≡ cause_in cause end }
{
    match cause {
        1 => Cause::LinkUp,
        2 => Cause::Flr(end),
        _ => Cause::D3hot,
    }
}

// Kept: as for cause_of.
fn phase_of(phase: u8, cause: Cause, ready: Nanos) -> Phase
    ensures { result ≡ phase_in phase cause ready }
{
    match phase {
        0 => Phase::Down,
        1 => Phase::Pending(cause, ready),
        _ => Phase::Ready,
    }
}

// Phase, cause, ready time and FLR end; a status that has no use for one of these forgets it.
// Kept: `at < 65536` as in is_good_status.
fn status_in(bytes: &[u8], at: usize) -> Status
    requires { at < 65536 }
    ensures { result ≡ status_in (drop at bytes.now) }
{
    let ready = times::nanos_of(eight_at(bytes, at + 2));
    let end = times::nanos_of(eight_at(bytes, at + 10));
    let cause = cause_of(byte_at(bytes, at + 1), end);
    let phase = phase_of(byte_at(bytes, at), cause, ready);
    Status { phase }
}

pub fn statuses_in(bytes: &[u8]) -> [Status; 32]
    ensures { result ≡ statuses_in_bytes 32 (drop 46 bytes.now) }
{
    let mut statuses = all_down();
    for i in 0..32 {
        statuses[i] = status_in(bytes, 46 + 27 * i);
    }
    statuses
}

// ---- Writing, field by field

// Link, owed, Received, Overflow, DRS Received, visibility, FRS interrupt, signalling.
fn put_singles(bytes: &mut [u8], dev: Dev)
    ensures { bytes.new ≡ sets bytes.old 16 (single_bytes dev) }
{
    put_bool(&mut *bytes, 16, dev.link);
    put_bool(&mut *bytes, 17, dev.owed);
    put_bool(&mut *bytes, 18, dev.queue.received);
    put_bool(&mut *bytes, 19, dev.queue.overflow);
    put_bool(&mut *bytes, 20, dev.drs_received);
    put_bool(&mut *bytes, 21, dev.control.visibility);
    put_bool(&mut *bytes, 22, dev.control.frs_interrupt);
    put(&mut *bytes, 23, dev.control.signalling);
}

// Clock, moment of the last reset, the single bytes, queue start, depth.
fn put_dev(bytes: &mut [u8], dev: Dev)
    ensures { bytes.new ≡ sets bytes.old 0 (dev_bytes dev) }
{
    put_eight(&mut *bytes, 0, times::nanos_number(dev.clock));
    put_eight(&mut *bytes, 8, 0);
    put_singles(&mut *bytes, dev);
    put_two(&mut *bytes, 24, dev.queue.start);
    put_two(&mut *bytes, 26, dev.queue.depth);
}

// A byte, and 0 past the count.
pub fn shown(i: usize, count: usize, b: u8) -> u8
    ensures { result ≡ cond (ltb i count) b 0 }
{
    if i < count { b } else { 0 }
}

// The carried bytes.
fn put_carried(bytes: &mut [u8], carried: [u8; 16], count: usize)
    ensures { bytes.new ≡ sets bytes.old 29 (up_to count carried) }
{
    for i in 0..16 {
        put(&mut *bytes, 29 + i, shown(i, count, carried[i]));
    }
}

fn put_port(bytes: &mut [u8], port: Port)
    ensures { bytes.new ≡ sets bytes.old 0 (port_bytes port) }
{
    put_dev(&mut *bytes, port.dev);
    put(&mut *bytes, 28, (port.carried_len % 256) as u8);
    put_carried(&mut *bytes, port.carried, port.carried_len);
    put_bool(&mut *bytes, 45, port.broken);
}

// Kept: the layout's numbers stand here beside each other and not as a From of `readiness`, whose types say nothing of images.
fn phase_byte(phase: Phase) -> u8
    ensures { result ≡ phase_byte phase }
{
    match phase {
        Phase::Down => 0,
        Phase::Pending(_, _) => 1,
        Phase::Ready => 2,
    }
}

// Kept: as for phase_byte.
fn cause_number(cause: Cause) -> u8
    ensures { result ≡ cause_number cause }
{
    match cause {
        Cause::LinkUp => 1,
        Cause::Flr(_) => 2,
        Cause::D3hot => 3,
    }
}

fn cause_byte(phase: Phase) -> u8
    ensures { result ≡ cause_byte phase }
{
    match phase {
        Phase::Down => 0,
        Phase::Pending(cause, _) => cause_number(cause),
        Phase::Ready => 0,
    }
}

fn ready_time(phase: Phase) -> u64
    ensures { result ≡ ready_time phase }
{
    match phase {
        Phase::Down => 0,
        Phase::Pending(_, ready) => times::nanos_number(ready),
        Phase::Ready => 0,
    }
}

fn end_number(cause: Cause) -> u64
    ensures { result ≡ end_number cause }
{
    match cause {
        Cause::LinkUp => 0,
        Cause::Flr(end) => times::nanos_number(end),
        Cause::D3hot => 0,
    }
}

fn flr_end(phase: Phase) -> u64
    ensures { result ≡ flr_end phase }
{
    match phase {
        Phase::Down => 0,
        Phase::Pending(cause, _) => end_number(cause),
        Phase::Ready => 0,
    }
}

// Phase, cause, ready time and FLR end; no set of children, and no end of its change.
// Kept: `at < 65536` as in is_good_status; `bytes` and `at` as in `numbers`.
fn put_status(bytes: &mut [u8], at: usize, status: Status)
    requires { at < 65536 }
    ensures { bytes.new ≡ sets bytes.old at (status_bytes status) }
{
    let phase = status.phase;
    put(&mut *bytes, at, phase_byte(phase));
    put(&mut *bytes, at + 1, cause_byte(phase));
    put_eight(&mut *bytes, at + 2, ready_time(phase));
    put_eight(&mut *bytes, at + 10, flr_end(phase));
    put(&mut *bytes, at + 18, 0);
    put_eight(&mut *bytes, at + 19, 0);
}

fn put_statuses(bytes: &mut [u8], statuses: [Status; 32], lent: usize)
    requires { lent ≤ 32 }
    ensures { bytes.new ≡ sets bytes.old 46 (statuses_bytes (take lent statuses)) }
{
    for i in 0..lent {
        put_status(&mut *bytes, 46 + 27 * i, statuses[i]);
    }
}

// The port's bytes and those of the first statuses, as many as are lent, at the front.
pub fn put_state(bytes: &mut [u8], port: Port, statuses: [Status; 32], lent: usize)
    requires { lent ≤ 32 }
    ensures { bytes.new ≡ sets bytes.old 0 (state_bytes port (take lent statuses)) }
{
    put_port(&mut *bytes, port);
    put_statuses(&mut *bytes, statuses, lent);
}

// The port's bytes and those of 32 statuses.
pub fn state_bytes(port: Port, statuses: [Status; 32]) -> [u8; 910]
    ensures { result ≡ state_bytes port statuses }
{
    let mut bytes = [0u8; 910];
    put_state(&mut bytes, port, statuses, 32);
    bytes
}

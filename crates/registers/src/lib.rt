// The registers in configuration space: the attributes of each word, and what a read, a write, a reset and the hardware do to one word.
// Kept in this file: kind, word and values of one access are passed one by one, as the definitions of specs/ take them.
#![tactic(auto)]

mod table; // the const table of masks

ghost use Rattle.std.specs.Prelude.{◌≡◌, ◌+◌, ◌<◌, ◌≤◌, get_or};
ghost use Rattle.registers.specs.Rows.{masks, row_of, reads_zero, default_must_be_zero, checked_words, default_allowed, flr_capability_word, starts_flr};
ghost use Rattle.registers.specs.inner.Masks.{start_of, held as held_bits, link_mask, flr_mask, with_defaults};
ghost use Rattle.registers.specs.Words.{lane_mask, power_state, stays, read_word, write_word, starts_d3hot, hardware_set};

use table::MASKS;

// What a slot holds: it selects the attributes of its words.
#[derive(Clone, Copy, PartialEq, Eq)]
pub enum Kind {
    Endpoint,
}

// The attributes of a word, a mask each: bits that software writes, bits that are cleared by writing 1, sticky bits, and bits that
// are kept through FLR.
#[derive(Clone, Copy, Default)]
pub struct Row {
    pub w: u32,
    pub c: u32,
    pub s: u32,
    pub k: u32,
}

// The table: W, C, S, K of each of the 64 words of each kind. It holds those masks and no others.
#[derive(Clone, Copy)]
pub struct Masks {
    pub rows: [u32; 256],
    pub ghost given: { rows ≡ masks },
}

// PMCSR at 44h, device capabilities at 74h, and device control and status at 78h, as word numbers.
pub const PMCSR: usize = 17;

pub const DEVICE_CAPABILITIES: usize = 29;

pub const DEVICE_CONTROL: usize = 30;

// Bits 15 (Initiate FLR) and 21 (Transactions Pending) of 78h; bits 1:0 (PowerState) of 44h.
const DEVICE_ZEROS: u32 = 0x00208000;

const POWER_STATE: u32 = 0x00000003;

// A write to 78h that asks for an FLR: byte 1 of the enables and bit 15 of the data; and bit 28 of 74h, FLR capable.
const FLR_BYTE: u8 = 0x02;

const INITIATE_FLR: u32 = 0x00008000;

const FLR_CAPABLE: u32 = 0x10000000;

// A copy of the table, to be lent to what looks up rows: once for a long call, since it costs some hundred instructions.
pub fn attributes() -> Masks
    ensures { result.rows ≡ masks }
{
    Masks { rows: MASKS }
}

// Where the masks of a kind start in the table: 64 rows of four.
fn start(kind: Kind) -> usize
    ensures { (result ≡ start_of kind) × (result + 256 ≤ 256) }
{
    match kind {
        Kind::Endpoint => 0,
    }
}

// The row of word i, in the lent table; no word above 63 has attributes.
pub fn row_of(table: &Masks, kind: Kind, i: usize) -> Row
    ensures { result ≡ row_of kind i }
{
    if i > 63 {
        return Row::default();
    }
    let j = start(kind) + i * 4;
    Row {
        w: table.rows[j],
        c: table.rows[j + 1],
        s: table.rows[j + 2],
        k: table.rows[j + 3],
    }
}

// The bits of word i that always read 0.
#[tactic(auto, using(crate::proofs::Rules::reads_zero_is))]
pub fn reads_zero(kind: Kind, i: usize) -> u32
    ensures { result ≡ reads_zero kind i }
{
    match kind {
        Kind::Endpoint if i == DEVICE_CONTROL => DEVICE_ZEROS,
        Kind::Endpoint => 0,
    }
}

// The bits that the default of word i must not have set.
#[tactic(auto, using(crate::proofs::Rules::must_be_zero_is))]
pub fn default_must_be_zero(kind: Kind, i: usize) -> u32
    ensures { result ≡ default_must_be_zero kind i }
{
    match kind {
        Kind::Endpoint => match i {
            DEVICE_CONTROL => DEVICE_ZEROS,
            PMCSR => POWER_STATE,
            _ => 0,
        },
    }
}

// The words that have such bits.
pub fn checked_words(kind: Kind) -> [usize; 2]
    ensures value { result ≡ checked_words kind }
    ensures result_bound { (get_or result 0 0 < 64) × (get_or result 1 0 < 64) }
{
    match kind {
        Kind::Endpoint => [PMCSR, DEVICE_CONTROL],
    }
}

// Refusal 4, for one word: the default has none of the bits that must be 0.
pub fn default_allowed(kind: Kind, i: usize, default: u32) -> bool
    ensures { result ≡ default_allowed kind i default }
{
    default & default_must_be_zero(kind, i) == 0
}

// The word whose default says FLR capable.
pub fn flr_capability_word(kind: Kind) -> usize
    ensures { (result ≡ flr_capability_word kind) × (result < 64) }
{
    match kind {
        Kind::Endpoint => DEVICE_CAPABILITIES,
    }
}

// Whether a write of `value` to word i starts an FLR; `capabilities` is the slot's default of that word.
#[tactic(auto, using(crate::proofs::Rules::starts_flr_is, crate::proofs::Rules::lane_set, crate::proofs::Rules::initiate_set, crate::proofs::Rules::capable_set))]
pub fn starts_flr(kind: Kind, i: usize, value: u32, enables: u8, capabilities: u32) -> bool
    ensures { result ≡ starts_flr kind i value enables capabilities }
{
    match kind {
        Kind::Endpoint => {
            i == DEVICE_CONTROL
                && enables & FLR_BYTE != 0
                && value & INITIATE_FLR != 0
                && capabilities & FLR_CAPABLE != 0
        }
    }
}

// The PowerState that PMCSR holds.
pub fn power_state(live: u32) -> u32
    ensures { result ≡ power_state live }
{
    live & 3
}

// Whether a write to word i takes PowerState from 3 to 0: the word before it and after it.
#[tactic(auto, unfolding(crate::specs::Words::starts_d3hot))]
pub fn starts_d3hot(kind: Kind, i: usize, old: u32, new: u32) -> bool
    ensures { result ≡ starts_d3hot kind i old new }
{
    i == PMCSR && power_state(old) == 3 && power_state(new) == 0
}

// All eight bits of each byte lane that is enabled. Only the four low bits of `enables` count.
pub fn lane_mask(enables: u8) -> u32
    ensures { result ≡ lane_mask enables }
{
    let on = enables as u32 & 15;
    ((on | on << 7 | on << 14 | on << 21) & 0x01010101) * 255
}

// Whether writing `value` to word i leaves PowerState as it was.
fn stays(i: usize, value: u32) -> bool
    ensures { result ≡ stays i value }
{
    let state = power_state(value);
    i == PMCSR && (state == 1 || state == 2)
}

// The two bits of PowerState where writing `value` to word i leaves them as they were, else none.
fn held(i: usize, value: u32) -> u32
    ensures { result ≡ held_bits i value }
{
    if stays(i, value) { POWER_STATE } else { 0 }
}

pub fn read_word(kind: Kind, i: usize, live: u32, enables: u8) -> u32
    ensures { result ≡ read_word kind i live enables }
{
    live & lane_mask(enables) & !reads_zero(kind, i)
}

pub fn write_word(table: &Masks, kind: Kind, i: usize, old: u32, value: u32, enables: u8) -> u32
    ensures { result ≡ write_word kind i old value enables }
{
    let row = row_of(table, kind, i);
    let on = lane_mask(enables) & !held(i, value);
    let w = row.w & on;
    let c = row.c & on;
    old & !w & !(c & value) | value & w
}

// The bits of word i that take their defaults when the link goes down: those in W or C and not in S.
pub fn link_mask(table: &Masks, kind: Kind, i: usize) -> u32
    ensures { result ≡ link_mask kind i }
{
    let row = row_of(table, kind, i);
    (row.w | row.c) & !row.s
}

// And at an FLR: those in K don't either.
pub fn flr_mask(table: &Masks, kind: Kind, i: usize) -> u32
    ensures { result ≡ flr_mask kind i }
{
    let row = row_of(table, kind, i);
    (row.w | row.c) & !row.s & !row.k
}

// A word of which the bits of a mask take their defaults.
pub fn with_defaults(mask: u32, live: u32, default: u32) -> u32
    ensures { result ≡ with_defaults mask live default }
{
    live & !mask | default & mask
}

pub fn hardware_set(table: &Masks, kind: Kind, i: usize, live: u32, mask: u32) -> u32
    ensures { result ≡ hardware_set kind i live mask }
{
    let row = row_of(table, kind, i);
    live | row.c & mask
}

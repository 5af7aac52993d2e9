// The lent words of configuration space, 64 to a slot: the resets of a slot, of one slot after the other, and of all words.
// Kept in this file: live words, defaults and slot are passed one by one, since a struct of them would hide which list changes.
#![tactic(auto)]

ghost use Rattle.std.specs.Prelude.{◌≡◌, ℕ, ◌+◌, ◌*◌, ◌<◌, ◌≤◌, min, length, get_or, set};
ghost use Rattle.std.specs.Coded.{Coded-set};
ghost use Rattle.registers.specs.inner.Masks.{with_defaults};
ghost use Rattle.config_space.specs.Functions.{word_place, reset_where, in_slot, link_reset_slot, flr_reset_slot, cold_reset};
ghost use Rattle.config_words.specs.inner.Resetting.{between, mask_in, by_mask, all_masks, link_masks, flr_masks, changing_between};

use registers::{DEVICE_CONTROL, Kind, Masks, PMCSR};

// The bits that take their defaults in a reset, of each word that software or the hardware changes; no other word has any.
// Kept: ten names and not an array of ten masks, since an array would need a second one of the words' numbers beside it.
#[derive(Clone, Copy)]
pub struct ResetMasks {
    pub command: u32,
    pub cache_line: u32,
    pub bar0: u32,
    pub interrupt_line: u32,
    pub pmcsr: u32,
    pub msi_control: u32,
    pub msi_address: u32,
    pub msi_data: u32,
    pub device_control: u32,
    pub link_control: u32,
}

// The masks of link down, with the kind that they are of.
#[derive(Clone, Copy)]
pub struct LinkMasks {
    pub kind: Kind,
    pub masks: ResetMasks,
    pub ghost given: { masks ≡ link_masks kind } by { Coded-set masks-code masks (link_masks kind) },
}

// Those words, with PMCSR at 44h and device control at 78h: 04h, 0Ch, 10h, 3Ch, 50h, 54h, 58h, 80h.
const COMMAND: usize = 1;

const CACHE_LINE: usize = 3;

const BAR0: usize = 4;

const INTERRUPT_LINE: usize = 15;

const MSI_CONTROL: usize = 20;

const MSI_ADDRESS: usize = 21;

const MSI_DATA: usize = 22;

const LINK_CONTROL: usize = 32;

// The masks of those words, each as `mask` gives it for the word's number.
fn each_mask<F: Fn(usize) -> u32>(mask: F) -> ResetMasks
    requires { F.IsAlwaysCallable mask }
    ensures { (of : ℕ → ℕ) → ((i x : ℕ) → F.post mask i x → x ≡ of i) → result ≡ all_masks of }
{
    ResetMasks {
        command: mask(COMMAND),
        cache_line: mask(CACHE_LINE),
        bar0: mask(BAR0),
        interrupt_line: mask(INTERRUPT_LINE),
        pmcsr: mask(PMCSR),
        msi_control: mask(MSI_CONTROL),
        msi_address: mask(MSI_ADDRESS),
        msi_data: mask(MSI_DATA),
        device_control: mask(DEVICE_CONTROL),
        link_control: mask(LINK_CONTROL),
    }
}

// When the link goes down.
fn link_masks(table: &Masks, kind: Kind) -> ResetMasks
    ensures { result ≡ link_masks kind }
{
    each_mask(|i| registers::link_mask(table, kind, i))
}

// At an FLR.
fn flr_masks(table: &Masks, kind: Kind) -> ResetMasks
    ensures { result ≡ flr_masks kind }
{
    each_mask(|i| registers::flr_mask(table, kind, i))
}

// The mask of word i.
fn mask_in(reset: ResetMasks, i: usize) -> u32
    ensures { result ≡ mask_in reset i }
{
    match i {
        COMMAND => reset.command,
        CACHE_LINE => reset.cache_line,
        BAR0 => reset.bar0,
        INTERRUPT_LINE => reset.interrupt_line,
        PMCSR => reset.pmcsr,
        MSI_CONTROL => reset.msi_control,
        MSI_ADDRESS => reset.msi_address,
        MSI_DATA => reset.msi_data,
        DEVICE_CONTROL => reset.device_control,
        LINK_CONTROL => reset.link_control,
        _ => 0,
    }
}

// The reset of the lent words from `from` up to, and without, `to`, as far as both slices go.
fn reset_words(reset: ResetMasks, from: usize, to: usize, live: &mut [u32], defaults: &[u32])
    ensures { live.new ≡ reset_where (between from to) (by_mask reset) live.old defaults.now }
{
    let end = to.min(live.len()).min(defaults.len());
    for n in from..end {
        let mask = mask_in(reset, n % 64);
        live[n] = registers::with_defaults(mask, live[n], defaults[n]);
    }
}

// The reset of word i of a slot, of which the bits of a mask take their defaults.
fn reset_at(mask: u32, slot: usize, i: usize, live: &mut [u32], defaults: &[u32])
    requires { (word_place slot i < length live.old) × (word_place slot i < length defaults.now) }
    ensures { live.new
        ≡ set live.old (word_place slot i) (with_defaults mask (get_or live.old (word_place slot i) 0) (get_or defaults.now (word_place slot i) 0)) }
{
    let n = slot * 64 + i;
    live[n] = registers::with_defaults(mask, live[n], defaults[n]);
}

// The reset of those words of a slot up to 44h that software or the hardware changes.
fn reset_low(reset: ResetMasks, slot: usize, live: &mut [u32], defaults: &[u32])
    requires { (slot * 64 + 64 ≤ length live.old) × (slot * 64 + 64 ≤ length defaults.now) }
    ensures { live.new
        ≡ reset_where (changing_between (slot * 64) (slot * 64 + 18)) (by_mask reset) live.old defaults.now }
{
    reset_at(reset.command, slot, COMMAND, live, defaults);
    reset_at(reset.cache_line, slot, CACHE_LINE, live, defaults);
    reset_at(reset.bar0, slot, BAR0, live, defaults);
    reset_at(reset.interrupt_line, slot, INTERRUPT_LINE, live, defaults);
    reset_at(reset.pmcsr, slot, PMCSR, live, defaults);
}

// The same above 44h.
fn reset_high(reset: ResetMasks, slot: usize, live: &mut [u32], defaults: &[u32])
    requires { (slot * 64 + 64 ≤ length live.old) × (slot * 64 + 64 ≤ length defaults.now) }
    ensures { live.new
        ≡ reset_where (changing_between (slot * 64 + 18) (slot * 64 + 64)) (by_mask reset) live.old defaults.now }
{
    reset_at(reset.msi_control, slot, MSI_CONTROL, live, defaults);
    reset_at(reset.msi_address, slot, MSI_ADDRESS, live, defaults);
    reset_at(reset.msi_data, slot, MSI_DATA, live, defaults);
    reset_at(reset.device_control, slot, DEVICE_CONTROL, live, defaults);
    reset_at(reset.link_control, slot, LINK_CONTROL, live, defaults);
}

// The reset of those words of a slot that software or the hardware changes.
fn reset_changing(reset: ResetMasks, slot: usize, live: &mut [u32], defaults: &[u32])
    requires { (slot * 64 + 64 ≤ length live.old) × (slot * 64 + 64 ≤ length defaults.now) }
    ensures { live.new
        ≡ reset_where (changing_between (slot * 64) (slot * 64 + 64)) (by_mask reset) live.old defaults.now }
{
    reset_low(reset, slot, live, defaults);
    reset_high(reset, slot, live, defaults);
}

// Where word i of a slot stands among `words` lent words; `words` if it isn't among them.
fn word_index(slot: usize, i: usize, words: usize) -> usize
    ensures { result ≡ min (word_place slot i) words }
{
    if words / 64 < slot {
        return words;
    }
    let start = slot * 64;
    if i < words - start { start + i } else { words }
}

// How many slots both lists have whole.
fn whole_slots(live: usize, defaults: usize) -> usize
    ensures { (result * 64 ≤ live) × (result * 64 ≤ defaults) }
{
    live.min(defaults) / 64
}

// The reset of a slot, as far as both slices have it.
fn reset_slot(reset: ResetMasks, slot: usize, live: &mut [u32], defaults: &[u32])
    ensures { live.new ≡ reset_where (in_slot slot) (by_mask reset) live.old defaults.now }
{
    let words = live.len();
    if slot < whole_slots(words, defaults.len()) {
        reset_changing(reset, slot, live, defaults);
    } else {
        let from = word_index(slot, 0, words);
        let to = word_index(slot, 64, words);
        reset_words(reset, from, to, live, defaults);
    }
}

// Link down, in one slot.
pub fn link_reset_slot(table: &Masks, kind: Kind, slot: usize, live: &mut [u32], defaults: &[u32])
    ensures { live.new ≡ link_reset_slot kind slot live.old defaults.now }
{
    let reset = link_masks(table, kind);
    reset_slot(reset, slot, live, defaults);
}

// FLR, its slot only.
pub fn flr_reset_slot(table: &Masks, kind: Kind, slot: usize, live: &mut [u32], defaults: &[u32])
    ensures { live.new ≡ flr_reset_slot kind slot live.old defaults.now }
{
    let reset = flr_masks(table, kind);
    reset_slot(reset, slot, live, defaults);
}

// The masks of link down of a kind, to start a reset of one slot after the other.
pub fn link_masks_of(table: &Masks, kind: Kind) -> LinkMasks
    ensures { result.kind ≡ kind }
{
    LinkMasks {
        kind,
        masks: link_masks(table, kind),
    }
}

// The masks of a kind, read only if the last ones are of another kind.
fn next_masks(table: &Masks, last: LinkMasks, kind: Kind) -> LinkMasks
    ensures { result.kind ≡ kind }
{
    if last.kind == kind {
        last
    } else {
        link_masks_of(table, kind)
    }
}

// Link down, in one slot after another: the masks of the last slot's kind come in, those of this slot's kind go out.
pub fn link_reset_next(
    table: &Masks,
    last: LinkMasks,
    kind: Kind,
    slot: usize,
    live: &mut [u32],
    defaults: &[u32],
) -> LinkMasks
    ensures kind_after { result.kind ≡ kind }
    ensures live_after { live.new ≡ link_reset_slot kind slot live.old defaults.now }
{
    let next = next_masks(table, last, kind);
    reset_slot(next.masks, slot, live, defaults);
    next
}

// Cold reset: the live words equal the defaults.
pub fn cold_reset(live: &mut [u32], defaults: &[u32])
    ensures { live.new ≡ cold_reset live.old defaults.now }
{
    for n in 0..live.len().min(defaults.len()) {
        live[n] = defaults[n];
    }
}

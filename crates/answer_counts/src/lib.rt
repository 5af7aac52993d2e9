// How many answers had each status.
#![tactic(auto)]

ghost use Rattle.std.specs.Prelude.{◌≡◌, ◌+◌, ◌%◌, ◌^◌, ◌<◌, replicate};
ghost use Rattle.answer_counts.specs.Counts.{place_of, statuses_in, counted_in, all_on, any_refused};

// How many answers had status 0, each of 16 to 25, and any other, in this order. Each count is modulo 2^64.
#[derive(Clone, Copy)]
pub struct Counts {
    pub by: [u64; 12],
}

pub fn no_counts() -> Counts
    ensures { result ≡ record { by = replicate 12 0 } }
{
    Counts { by: [0u64; 12] }
}

// Where a status is counted.
#[tactic(auto, unfolding(crate::specs::Counts::place_of))]
fn place_of(status: u8) -> usize
    ensures value { result ≡ place_of status }
    ensures upper_bound { result < 12 }
{
    match status {
        0 => 0,
        16..=25 => usize::from(status) - 15,
        _ => 11,
    }
}

fn count_each(before: [u64; 12], answers: &[u8]) -> [u64; 12]
    ensures { result ≡ all_on before (counted_in (statuses_in answers.now)) }
{
    let mut by = before;
    for i in 0..answers.len() / 8 {
        let k = place_of(answers[8 * i]);
        by[k] = by[k].wrapping_add(1);
    }
    by
}

// After these answers, of 8 bytes each; bytes after the last whole one don't count.
pub fn count(before: Counts, answers: &[u8]) -> Counts
    ensures { result ≡ record { by = all_on before.by (counted_in (statuses_in answers.now)) } }
{
    Counts {
        by: count_each(before.by, answers),
    }
}

// Whether any status was 19 to 25: the record asked for what there isn't, or what isn't allowed.
#[tactic(auto, unfolding(crate::specs::Counts::any_refused))]
pub fn any_refused(counts: Counts) -> bool
    ensures { result ≡ any_refused counts }
{
    let by = counts.by;
    by[4] > 0 || by[5] > 0 || by[6] > 0 || by[7] > 0 || by[8] > 0 || by[9] > 0 || by[10] > 0
}

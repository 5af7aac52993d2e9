// From nanoseconds to a code (02, Q-1): the code of the least time that isn't below a claim, and of several such codes the lowest.
// Only a claim with its unit comes here from outside.
ghost use Rattle.std.specs.Prelude.{◌≡◌, ◌+◌, ◌<◌, ◌≤◌};
ghost use Rattle.times.specs.Claims.{claimed_nanos};
ghost use Rattle.times.specs.Encoder.{rounded_up, greatest_value, code_of, encoded, starts_scale, next_lower};

use crate::{ClaimedTime, Code, GREATEST_TIME, Nanos, claimed_nanos, factor};

// A time divided by a factor, rounded up.
#[tactic(auto, unfolding(crate::specs::Encoder::rounded_up))]
fn rounded_up(t: u64, by: u64) -> u64
    requires { (0 < by) × (t + by ≤ 18446744073709551615) }
    ensures { result ≡ rounded_up t by }
{
    (t + (by - 1)) / by
}

// The greatest value of an allowed code at this scale.
fn greatest_value(scale: usize) -> u64
    ensures { result ≡ greatest_value scale }
{
    if scale == 5 { 30 } else { 511 }
}

// The code of a value and a scale.
#[tactic(auto, unfolding(crate::specs::Encoder::code_of))]
fn code_at(value: u64, scale: usize) -> Code
    requires { (value < 512) × (scale < 8) }
    ensures { result ≡ code_of value scale }
{
    Code((value + 512 * (scale as u64)) as u16)
}

// The code of the least time that isn't below this one, if there is one; of several such codes, the lowest.
fn encode(t: Nanos) -> Option<Code>
    ensures { result ≡ encoded t }
{
    let n = t.0;
    if n > GREATEST_TIME {
        return None;
    }
    for scale in 0..6 {
        let value = rounded_up(n, factor(scale));
        let most = greatest_value(scale);
        if value <= most {
            return Some(code_at(value, scale));
        }
    }
    None
}

// The code of a claim.
pub fn code_for(c: ClaimedTime) -> Option<Code>
    ensures { result ≡ encoded (claimed_nanos c) }
{
    encode(claimed_nanos(c))
}

// Whether the value is 16, at a scale above 0.
#[tactic(auto, unfolding(crate::specs::Encoder::starts_scale))]
fn starts_scale(value: u64, scale: usize) -> bool
    ensures { result ≡ starts_scale value scale }
{
    value == 16 && 0 < scale
}

// The code of the next smaller time below a code that the encoder gave.
pub fn next_lower(c: Code) -> Option<Code>
    ensures { result ≡ next_lower c }
{
    let value = (c.0 % 512) as u64;
    let scale = (c.0 / 512 % 8) as usize;
    if value == 0 {
        None
    } else if starts_scale(value, scale) {
        Some(code_at(511, scale - 1))
    } else {
        Some(code_at(value - 1, scale))
    }
}

// Where the unit of a sheet may be wrong.
ghost use Rattle.std.specs.Prelude.{◌≡◌, ◌≤◌};
ghost use Rattle.sheet_grammar.specs.Doubts.{is_far, doubt_of};

use sheet_grammar::Doubt;
use times::{Code, in_nanos, nanos_number};

// A factor from which on times are far apart.
const FAR: u64 = 500;

// Whether one time is 500 times the other or more. A code's time is below 2 * 10^13.
#[tactic(auto, unfolding(sheet_grammar::specs::Doubts::is_far))]
fn is_far(t: u64, u: u64) -> bool
    requires { (t ≤ 17557826306048) × (u ≤ 17557826306048) }
    ensures { result ≡ is_far t u }
{
    FAR * t <= u || FAR * u <= t
}

// What is to be said of a code that a sheet gives, beside the one that was there before.
#[tactic(auto, unfolding(sheet_grammar::specs::Doubts::doubt_of))]
pub fn doubt(before: Code, after: Code) -> Option<Doubt>
    ensures { result ≡ doubt_of before after }
{
    let t = nanos_number(in_nanos(before));
    let u = nanos_number(in_nanos(after));
    if t == 0 && u == 0 {
        None
    } else if t == 0 || u == 0 {
        Some(Doubt::OneIsZero)
    } else if is_far(t, u) {
        Some(Doubt::AskUnit)
    } else {
        None
    }
}

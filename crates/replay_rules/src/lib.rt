// No code: replay at the bench.
#![tactic(auto)]

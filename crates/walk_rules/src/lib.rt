// What proofs by hand of functions over references to structs share, for every struct: all of it is in proofs/. No code.
#![tactic(auto)]

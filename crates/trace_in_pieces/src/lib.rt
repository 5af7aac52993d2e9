// A trace fed in pieces, and a capture in one call: all of it is in specs/ and proofs/. No code.
#![tactic(auto)]

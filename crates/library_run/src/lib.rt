// What a run of a card's text and a trace or a capture gives: all of it is in specs/ and proofs/. No code.
#![tactic(auto)]

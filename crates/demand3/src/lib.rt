// What is lent, refusals, set-up, feed and lists of calls; demand 3 and the marked cases: all of it is in specs/ and proofs/. No code.
#![tactic(auto)]

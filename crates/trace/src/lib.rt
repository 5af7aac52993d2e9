// Records, the plain bench, feed and lists of calls, over any device: all of it is in specs/ and proofs/. No code.
#![tactic(auto)]

// Lists of calls of the public entries on one lent memory, and demand 3 for them: all of it is in specs/ and proofs/. No code.
#![tactic(auto)]

// The layout of a state as bytes: no code. The bytes are in specs/, what is read from them again in proofs/; the code is in image.
#![tactic(auto)]

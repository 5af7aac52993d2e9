// The lent words of configuration space, 64 to a slot: no code. What is done to them is in specs/, its laws in proofs/; the code is in config_words.
#![tactic(auto)]

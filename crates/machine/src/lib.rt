// A machine of the few instructions of a frame's code: definitions in specs/, laws in proofs/, no code.
#![tactic(auto)]

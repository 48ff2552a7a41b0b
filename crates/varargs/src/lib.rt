// Reading an image the way a routine with an ellipsis does: definitions in specs/ and laws in proofs/. There is no code here.
#![tactic(auto)]

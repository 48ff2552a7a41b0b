// The theory of carried bytes: definitions in specs/, theorems in proofs/, no code.
#![tactic(auto)]

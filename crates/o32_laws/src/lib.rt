// What holds of O32: demands 1 and 3, said of the kinds of a signature, and the laws that its passes need. There is no code.
#![tactic(auto)]

// The O32 convention: the data that its definitions in specs/ speak of. There is no code here.
#![tactic(auto)]

use kinds::Kind;
use rules::Prefix;

// What placement keeps of the arguments before. The definitions make states of any numbers, so no invariant stands here: what a step
// asks of one is `Placeable` (o32_step).
#[derive(Clone, Copy)]
pub struct State {
    // what the rules on lists keep
    pub prefix: Prefix,
    // where the last of them ends
    pub end: usize,
    // whether the first is a single or a double
    pub floating: bool,
}

// Where an argument goes: its offset, and "the floating register or 0", as document 02 has it in request (vii) and the definitions
// `placement` and `carriers` too.
#[derive(Clone, Copy)]
pub struct Placement {
    pub kind: Kind,
    pub offset: usize,
    pub register: usize,
}

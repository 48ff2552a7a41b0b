// The devices. There is no code here.
#![tactic(auto)]

// The board that a call or a frame is for. Rule 3 and the pairs that a frame saves depend on it.
#[derive(Clone, Copy)]
pub enum Device {
    // with a floating-point unit
    Fpu,
    // without one (request (ii) of document 02)
    NoFpu,
}

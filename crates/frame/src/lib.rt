// Frames: the data that the definitions in specs/ speak of. There is no code here.
#![tactic(auto)]

// What a routine asks of its frame.
#[derive(Clone, Copy)]
pub struct Request {
    // whether it calls nothing
    pub leaf: bool,
    // bytes of locals
    pub locals: u32,
    // bytes of outgoing arguments
    pub outgoing: u32,
    // the general registers to save: bit k is `$k`
    pub general: u32,
    // the floating pairs to save: bit k is `$f20` + 2k and the next
    pub pairs: u32,
}

// A frame. Offsets are from `$sp`.
#[derive(Clone, Copy)]
pub struct Frame {
    // F, the bytes of the frame
    pub frame: u32,
    // B, the bytes of the argument build area
    pub build: u32,
    // where the floating save area starts
    pub floating: u32,
    // where the general save area starts
    pub general: u32,
    // where the locals start
    pub locals: u32,
    // the offset of the save word of `$28`, the global pointer, where it is saved
    pub gp: Option<u32>,
}

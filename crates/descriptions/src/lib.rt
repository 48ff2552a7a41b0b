// Structures from descriptions: the data that the definitions in specs/ speak of. There is no code here.
#![tactic(auto)]

// A structure that was described.
#[derive(Clone, Copy)]
pub struct Structure {
    // its bytes
    pub size: usize,
    // its natural alignment: 1, 2, 4 or 8
    pub alignment: usize,
    // the kind byte of such an argument
    pub kind: u8,
}

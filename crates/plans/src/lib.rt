// Plans: the data that the definitions in specs/ speak of. There is no code here.
#![tactic(auto)]

// An entry of a plan. Request (vii) of document 02: "A placement is the kind, the offset and the floating register or 0."
#[derive(Clone, Copy, PartialEq, Eq)]
pub struct Entry {
    // the kind byte
    pub kind: u8,
    // the floating register, 12 or 14, or 0
    pub register: u8,
    // where the argument lies among all of them
    pub offset: u16,
}

// "A plan holds up to 32 placements with their count and the area size; entries past the count are zero."
#[derive(Clone, Copy, PartialEq, Eq)]
pub struct Plan {
    pub entries: [Entry; 32],
    pub count: u32,
    pub area: u32,
}

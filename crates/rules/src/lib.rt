// The rules on lists that every convention has: what is kept of the records before, refusals 2 and 3, and the argument's number.
#![tactic(auto)]

ghost use Rattle.std.specs.Prelude.{◌≡◌, ◌≤◌};
ghost use Rattle.rules.specs.Rules.{argument, arguments_most, extend, full, misplaced, nothing};

use kinds::{Class, Kind};

// What the rules keep of the records before one. (The definitions count past 32, so no invariant limits the count.)
#[derive(Clone, Copy, PartialEq, Eq)]
pub struct Prefix {
    // how many arguments there are, the return pointer counted
    pub count: usize,
    // whether the first is a return pointer
    pub pointer: bool,
    // whether a marker is among them
    pub marked: bool,
}

impl Prefix {
    // No record before.
    pub fn nothing() -> Prefix
        ensures { result ≡ nothing }
    {
        Prefix {
            count: 0,
            pointer: false,
            marked: false,
        }
    }

    // Refusal 2: a second marker, or one with nothing or only a return pointer before it; a return pointer that is not first.
    pub fn is_misplaced(self, kind: Kind) -> bool
        ensures { result ≡ misplaced self kind }
    {
        match kind.class {
            Class::Pointer => self.count != 0,
            Class::Marker => self.marked || self.count <= self.pointer as usize,
            _ => false,
        }
    }

    // Refusal 3: an argument after 32 others.
    pub fn is_full(self, kind: Kind) -> bool
        ensures { result ≡ full self kind }
    {
        !kind.is_class(Class::Marker) && 32 <= self.count
    }

    // The number of the argument that a record is or would be, from 1. A marker and an unknown kind are none.
    pub fn argument_of(self, kind: Kind) -> usize
        requires { self.count ≤ arguments_most }
        ensures { result ≡ argument self kind }
    {
        match kind.class {
            Class::Unknown | Class::Marker => 0,
            _ => self.count + 1,
        }
    }

    // What is kept once this record is added. A marker is no argument.
    pub fn extend(self, kind: Kind) -> Prefix
        requires { self.count ≤ arguments_most }
        ensures { result ≡ extend self kind }
    {
        if kind.is_class(Class::Marker) {
            return Prefix {
                marked: true,
                ..self
            };
        }
        Prefix {
            count: self.count + 1,
            pointer: self.pointer || kind.is_class(Class::Pointer),
            ..self
        }
    }
}

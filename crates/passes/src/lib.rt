// The passes of a writer and a reader of any convention: what they find.
#![tactic(auto)]

ghost use Rattle.std.specs.Prelude.{◌≡◌};
ghost use Rattle.answers.specs.declared.Cause.TheVariants.{Unpromoted};
ghost use Rattle.carried.specs.Convention.{body_length};

use answers::{Cause, Refusal};

// What an accepted list or signature measures: the length of the list and of its image.
#[derive(Clone, Copy)]
pub struct Measured {
    pub length: usize,
    pub image: usize,
}

// A kind whose word is no proper promotion: its place, and its argument's number.
#[derive(Clone, Copy)]
pub struct Improper {
    pub place: usize,
    pub argument: usize,
}

// Refusal 8.
impl From<Improper> for Refusal {
    ghost from_gives = { λ i e. e ≡ record { cause = Unpromoted; place = i.place; argument = i.argument } };

    fn from(improper: Improper) -> Refusal {
        Refusal {
            cause: Cause::Unpromoted,
            place: improper.place,
            argument: improper.argument,
        }
    }
}

// How many bytes follow a kind byte: in a list the body, in a signature none. (A flag, as the definition `scan` has it: it decides on a
// length, and not on a step.)
pub fn body_length(bodies: bool, size: usize) -> usize
    ensures { result ≡ body_length bodies size }
{
    if bodies { size } else { 0 }
}

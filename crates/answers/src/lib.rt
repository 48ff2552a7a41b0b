// What a function with a lent buffer answers: the length of what was written, or a refusal.
#![tactic(auto)]

ghost use Rattle.std.specs.Prelude.{◌≡◌};
ghost use Rattle.answers.specs.Numbers.{number};
ghost use Rattle.answers.specs.Outcomes.{in_numbers};

// Why a request is refused, in the order of the numbers that documents 01 and 02 give.
#[derive(Clone, Copy, PartialEq, Eq)]
pub enum Cause {
    // 1: a kind byte that is none
    UnknownKind,
    // 2: a second marker, a marker with nothing before it, a return pointer that is not first
    Misplaced,
    // 3: an argument after 32 others
    TooManyArguments,
    // 4: a body that is cut off
    BodyCutOff,
    // 5: an argument that ends beyond 1,024
    BeyondArea,
    // 6: an image whose length is not that of the signature's
    ImageLength,
    // 7: a buffer that is shorter than the result
    BufferTooShort,
    // 8: a word that is no proper promotion
    Unpromoted,
    // 9: a register or a pair that cannot be saved
    Unsavable,
    // 10: a routine that calls and does not save `$31`
    ReturnLost,
    // 11: too many bytes of locals
    TooManyLocals,
    // 12: too many bytes of outgoing arguments, or any in a leaf
    TooMuchOutgoing,
    // 13: a code buffer that is too short
    CodeBufferTooShort,
    // 14: pairs to save where there is no floating-point unit
    NoPairs,
    // 15: no marker
    Unmarked,
    // 16: a description whose bytes describe nothing
    Malformed,
    // 17: structures in one another too deeply
    TooDeep,
    // 18: a structure that is too long
    TooLong,
    // 19: a structure that no kind byte is for
    NoKind,
    // 20: a plan that is not the list's
    OtherPlan,
    // 21: code of a length that no prologue has
    CodeLength,
}

// A refusal: its cause, its place and its argument's number, each 0 where it has none, as documents 01 and 02 say ("Every other refusal
// reports 0").
#[derive(Clone, Copy, PartialEq, Eq)]
pub struct Refusal {
    pub cause: Cause,
    pub place: usize,
    pub argument: usize,
}

impl Cause {
    // The number that the papers give.
    pub fn number(self) -> u32
        ensures { result ≡ number self }
    {
        self as u32 + 1
    }
}

// A cause alone refuses the whole: at place 0, of no argument.
impl From<Cause> for Refusal {
    ghost from_gives = { λ c e. e ≡ record { cause = c; place = 0; argument = 0 } };

    fn from(cause: Cause) -> Refusal {
        Refusal {
            cause,
            place: 0,
            argument: 0,
        }
    }
}

// An answer in the papers' numbers, as it is printed: a refusal's, its place and its argument's number, or 0, 0, 0 and the
// length of what was written. (What is printed of an answer is promised for any four numbers, so a struct of numbers stays.)
#[derive(Clone, Copy, PartialEq, Eq)]
pub struct Answer {
    pub refusal: u32,
    pub place: usize,
    pub argument: usize,
    pub length: usize,
}

impl From<Result<usize, Refusal>> for Answer {
    ghost from_gives = { λ answer numbers. numbers ≡ in_numbers answer };

    fn from(answer: Result<usize, Refusal>) -> Answer {
        match answer {
            Ok(length) => Answer {
                refusal: 0,
                place: 0,
                argument: 0,
                length,
            },
            Err(refusal) => Answer {
                refusal: refusal.cause.number(),
                place: refusal.place,
                argument: refusal.argument,
                length: 0,
            },
        }
    }
}

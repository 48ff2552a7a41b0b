// Prologues that others send: what a check finds, in words and in numbers.
#![tactic(auto)]

ghost use Rattle.std.specs.Prelude.{◌≡◌};
ghost use Rattle.prologues.specs.Verdict.{finding_number};

// What a check finds in code of a right length.
#[derive(Clone, Copy)]
pub enum Finding {
    // a prologue for the request
    Accepted,
    // another word, or the `addiu` not once and first
    OtherWord,
    // the first register whose store is missing or doubled, a floating one as 32 plus its number, as the paper has it
    Register(u32),
}

impl Finding {
    // The number that the paper gives.
    pub fn number(self) -> u32
        ensures { result ≡ finding_number self }
    {
        match self {
            Finding::Accepted => 0,
            Finding::OtherWord => 255,
            Finding::Register(register) => register,
        }
    }
}

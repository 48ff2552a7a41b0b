// Rules 1 and 2: the bytes of an argument after promotion, and the next multiple of an alignment.
#![tactic(auto)]

ghost use Rattle.std.specs.Prelude.{◌≡◌, ◌≤◌};
ghost use Rattle.words.specs.Words.{up};
ghost use Rattle.o32_offsets.specs.Offsets.{Alignment, width};

use kinds::{Class, Kind};

// Rule 1: the bytes of an argument after promotion.
pub fn width_of(kind: Kind) -> usize
    ensures { result ≡ width kind }
{
    match kind.class {
        Class::Signed | Class::Unsigned => 4,
        _ => kind.size,
    }
}

// The next multiple of an alignment of 4 or 8 from n on; 0 where there is no alignment, as `up` has it. (By a mask: the walks over records
// wait for each offset, and `next_multiple_of` adds a test of the remainder to it.)
#[tactic(auto, using(crate::proofs::Offsets::masked_8, crate::proofs::Offsets::masked_4))]
pub fn align_up(alignment: usize, n: usize) -> usize
    requires alignment { Alignment alignment }
    requires n_bound { n ≤ 1024 }
    ensures { result ≡ up alignment n }
{
    match alignment {
        8 => (n + 7) & !7,
        4 => (n + 3) & !3,
        _ => 0,
    }
}

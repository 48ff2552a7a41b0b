// Structures from descriptions: the size, the alignment and the kind byte, in one pass over the bytes.
#![tactic(auto)]

ghost use Rattle.std.specs.Prelude.{◌≡◌, ◌*◌, ◌+◌, ◌≤◌, ◌<◌, get_or, length, IfErr};
ghost use Rattle.words.specs.Words.{up};
ghost use Rattle.descriptions.specs.Structures.{structure_in_numbers};
ghost use Rattle.descriptions.specs.Trees.{kind_for, suits};
ghost use Rattle.descriptions.specs.Describing.{described, end_most, scalar_bytes};
ghost use Rattle.descriptions_code.specs.Reading.{ListRead, OnlyKind, RepeatRead, TypeRead, alignment_most, closed_at, nonzero, size_most};

use answers::{Cause, Refusal};
use descriptions::Structure;
use kinds::{Class, Kind};

// A member's type that was read, to its last byte.
#[derive(Clone, Copy)]
struct Member {
    pub size: usize,
    pub alignment: usize,
    pub last: usize,
}

// How often the member at `next` is there.
#[derive(Clone, Copy)]
struct Repeat {
    pub times: usize,
    pub next: usize,
}

// The structure that these bytes describe. Refusals 16 to 19 by byte from the left, last 19 where no kind has its size.
pub fn describe(description: &[u8]) -> Result<Structure, Refusal>
    ensures answer { structure_in_numbers result ≡ described description.now }
    ensures no_argument { IfErr result (λ e. e.argument ≡ 0) }
{
    let [0x10, ..] = description else {
        return Err(Cause::Malformed.into());
    };
    // the description's structure is the first of six levels
    let whole = member_list(description, 1, 5)?;
    let next = whole.last + 1;
    if next < description.len() {
        return Err(refusal_at(Cause::Malformed, next)); // bytes left over
    }
    let kind = structure_kind(whole.size, whole.alignment).ok_or(Cause::NoKind)?;
    Ok(Structure {
        size: whole.size,
        alignment: whole.alignment,
        kind,
    })
}

// A byte is refused: the place is that byte's, and no argument has it.
fn refusal_at(cause: Cause, place: usize) -> Refusal
    ensures { result ≡ record { cause = cause; place = place; argument = 0 } }
{
    Refusal {
        cause,
        place,
        argument: 0,
    }
}

// A refusal names a place in the whole description, so the functions below have the description and a place in it, and no part of it.

// The members of a structure, from the byte after its opening byte to its closing byte. Structures may be opened inside it to this
// depth.
#[cycle(member_list_member_type)]
fn member_list(description: &[u8], start: usize, depth: usize) -> Result<Member, Refusal>
    ensures { ListRead description.now start depth result }
{
    let mut end = 0;
    let mut strictest = 1;
    let mut at = start;
    // a step is as long as the member that was read
    while at < description.len() {
        if description[at] == 0x11 {
            return close(end, strictest, at);
        }
        let repeat = repeat_at(description, at)?;
        let member = member_type(description, repeat.next, depth)?;
        let new_end = end_after(end, repeat.times, member);
        if 512 < new_end {
            return Err(refusal_at(Cause::TooLong, member.last));
        }
        end = new_end;
        strictest = member.alignment.max(strictest);
        at = member.last + 1;
    }
    Err(refusal_at(Cause::Malformed, at))
}

// The type of a member at a place: a scalar, or a structure, where any depth is left for it.
#[cycle(member_list_member_type)]
fn member_type(description: &[u8], at: usize, depth: usize) -> Result<Member, Refusal>
    ensures { TypeRead description.now at depth result }
{
    let Some(&byte) = description.get(at) else {
        return Err(refusal_at(Cause::Malformed, at));
    };
    if byte == 0x10 {
        if depth == 0 {
            return Err(refusal_at(Cause::TooDeep, at));
        }
        return member_list(description, at + 1, depth - 1);
    }
    let size = scalar_bytes(byte).ok_or(refusal_at(Cause::Malformed, at))?;
    Ok(Member {
        size,
        alignment: size,
        last: at,
    })
}

// The structure that is closed at a place; its last member ends at `end`, and its strictest has this alignment.
#[tactic(auto, using(crate::proofs::Numbers::up_only))]
fn close(end: usize, strictest: usize, at: usize) -> Result<Member, Refusal>
    requires { (end ≤ end_most) × (1 ≤ strictest) × (strictest ≤ alignment_most) }
    ensures { result ≡ closed_at end strictest at }
{
    if end == 0 {
        return Err(refusal_at(Cause::NoKind, at));
    }
    Ok(Member {
        size: end.next_multiple_of(strictest),
        alignment: strictest,
        last: at,
    })
}

// Where a member ends that starts at the next multiple of its alignment and stands so many times.
#[tactic(auto, using(crate::proofs::Numbers::up_only))]
fn end_after(end: usize, times: usize, member: Member) -> usize
    requires end_le_end_most { (end ≤ end_most) × (times ≤ 255) × (member.size ≤ size_most) }
    requires le_alignment { (1 ≤ member.alignment) × (member.alignment ≤ alignment_most) }
    ensures { result ≡ up member.alignment end + times * member.size }
{
    end.next_multiple_of(member.alignment) + times * member.size
}

// How often the member at a place is there: as a 12 and its count say, or once.
fn repeat_at(description: &[u8], at: usize) -> Result<Repeat, Refusal>
    requires { (at < length description.now) × (get_or description.now at 0 ≡ 0x11 → ⊥) }
    ensures { RepeatRead description.now at result }
{
    if description[at] != 0x12 {
        return Ok(Repeat { times: 1, next: at });
    }
    let next = at + 1;
    match description.get(next) {
        Some(&count) if count != 0 => Ok(Repeat {
            times: count as usize,
            next: next + 1,
        }),
        _ => Err(refusal_at(Cause::Malformed, next)),
    }
}

// The bytes of a scalar member, which are its alignment too, where the byte is one.
fn scalar_bytes(byte: u8) -> Option<usize>
    ensures { result ≡ nonzero (scalar_bytes byte) }
{
    match byte {
        1..=8 => Some(Kind::from(byte).size),
        _ => None,
    }
}

// The kind byte of a structure, where it has one. (A struct of its size and alignment would be `Structure` without the kind that is looked
// for.)
#[tactic(auto, using(crate::proofs::KindSearch::kind_none, crate::proofs::KindSearch::kind_if))]
fn structure_kind(size: usize, alignment: usize) -> Option<u8>
    ensures { result ≡ nonzero (kind_for size alignment) }
{
    let kind = only_kind(size, alignment)?;
    is_kind_for(kind, size, alignment).then_some(kind)
}

// The only byte that can be the kind of such a structure: whether it is, the table of kinds says.
fn only_kind(size: usize, alignment: usize) -> Option<u8>
    ensures { OnlyKind size alignment result }
{
    if 512 < size {
        return None;
    }
    if 4 < alignment {
        return Some((0xBF + size / 8) as u8);
    }
    if size <= 64 {
        return Some((0x3F + size) as u8);
    }
    Some((0x6F + size / 4) as u8)
}

// Whether a kind is for structures of this size and alignment. Those aligned below 4 use the kinds aligned to 4.
fn is_kind_for(byte: u8, size: usize, alignment: usize) -> bool
    ensures { result ≡ suits size alignment byte }
{
    let kind = Kind::from(byte);
    kind.is_class(Class::Structure) && kind.size == size && kind.alignment == alignment.max(4)
}

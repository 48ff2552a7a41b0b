// Reading an image the way a routine with an ellipsis does: `$4` to `$7` lie over their homes, and a pointer walks the argument area
// from the end of the last argument before the marker on.
#![tactic(auto)]

ghost use Rattle.std.specs.Prelude.{◌≡◌, ◌+◌, ◌-◌, ◌≤◌, length};
ghost use Rattle.answers.specs.Outcomes.{answer_of, buffer_of, in_numbers, over};
ghost use Rattle.words.specs.Words.{up};
ghost use Rattle.o32_offsets.specs.Offsets.{width};
ghost use Rattle.o32.specs.O32.{end_most};
ghost use Rattle.varargs.specs.Walking.{before, spilled, walk_from, walk_into};
ghost use Rattle.varargs.specs.Varargs.{body_bytes};
ghost use Rattle.varargs_code.specs.Starts.{Within, start_of};

use answers::{Cause, Refusal};
use device::Device;
use kinds::{Class, Kind};

// Where a walk starts: the place of the first kind after the marker, and the end of the last argument before it.
#[derive(Clone, Copy)]
struct Start {
    place: usize,
    pointer: usize,
}

// The pointer after an argument of this kind at an aligned pointer: a step by whole words.
fn step_over(kind: Kind, aligned: usize) -> usize
    requires { (width kind ≤ 512) × (kind.size ≤ 512) × (aligned ≤ 2048) }
    ensures { result ≡ aligned + up 4 (width kind) }
{
    aligned + o32_offsets::align_up(4, o32_offsets::width_of(kind))
}

// Where the walk starts, if there is a marker. Each argument before it moves the pointer to its end; a float does too, whatever its register.
fn find_start(signature: &[u8]) -> Option<Start>
    requires { Within end_most 0 (before signature.now) }
    ensures { result ≡ start_of signature.now }
{
    let mut pointer = 0;
    for at in 0..signature.len() {
        let kind = Kind::from(signature[at]);
        if kind.is_class(Class::Marker) {
            return Some(Start {
                place: at + 1,
                pointer,
            });
        }
        let aligned = o32_offsets::align_up(kind.alignment, pointer);
        pointer = step_over(kind, aligned);
    }
    None
}

// How many bytes the bodies of kinds have.
fn bodies_length(kinds: &[u8]) -> usize
    requires { body_bytes kinds.now ≤ end_most }
    ensures { result ≡ body_bytes kinds.now }
{
    let mut n = 0;
    for &byte in kinds {
        n += Kind::from(byte).size;
    }
    n
}

// Asks for kinds one at a time: the pointer is aligned, the body is taken there (of a byte or halfword the last
// one or two of its word), and the pointer is stepped by whole words. The buffer has room.
fn take_bodies(kinds: &[u8], start: usize, image: &[u8], out: &mut [u8])
    requires in_bounds { (48 ≤ length image.now) × (length image.now ≤ 1056) }
    requires within { Within (length image.now - 32) start kinds.now }
    requires bodies_in_bounds { body_bytes kinds.now ≤ length out.old }
    ensures { out.new ≡ over (walk_from (spilled image.now) start kinds.now) out.old }
{
    let mut pointer = start;
    let mut n = 0;
    for &byte in kinds {
        let kind = Kind::from(byte);
        let aligned = o32_offsets::align_up(kind.alignment, pointer);
        let width = o32_offsets::width_of(kind);
        let end = n + kind.size;
        o32_load::get_plain(image, aligned + (width - kind.size), &mut out[n..end]);
        n = end;
        pointer = step_over(kind, aligned);
    }
}

// The bodies of the arguments after the marker, end to end, as a routine with an ellipsis takes them from an image. Refusals 1, 2, 3
// and 5 by record of the signature, then 15, 6, 7 and 8; no byte is stored before all are decided.
pub fn walk(
    device: Device,
    signature: &[u8],
    image: &[u8],
    out: &mut [u8],
) -> Result<usize, Refusal>
    ensures answer { in_numbers result ≡ answer_of (walk_into device signature.now image.now (length out.old)) }
    ensures buffer { out.new ≡ buffer_of (walk_into device signature.now image.now (length out.old)) out.old }
{
    let measured = o32_measure::measure_signature(signature)?;
    let Some(start) = find_start(signature) else {
        return Err(Cause::Unmarked.into());
    };
    if image.len() != measured.image {
        return Err(Cause::ImageLength.into());
    }
    let kinds = &signature[start.place..];
    let n = bodies_length(kinds);
    if out.len() < n {
        return Err(Cause::BufferTooShort.into());
    }
    o32_reader::check(device, signature, image)?;
    take_bodies(kinds, start.pointer, image, out);
    Ok(n)
}

// Reading one argument out of a call image.
#![tactic(auto)]

ghost use Rattle.std.specs.Prelude.{map, ◌≡◌, ◌+◌, ◌≤◌, length};
ghost use Rattle.words.specs.Words.{body, proper};
ghost use Rattle.places.specs.Places.{gather, run};
ghost use Rattle.o32_offsets.specs.Offsets.{extension};
ghost use Rattle.o32.specs.O32.{carrier, carriers, end_most, float_bytes};
ghost use Rattle.o32_laws.specs.Fitting.{Fit, Floating};

use kinds::Class;
use o32::Placement;

// The image byte of byte o of the arguments' structure.
fn position(o: usize) -> usize
    requires { o ≤ end_most }
    ensures { result ≡ carrier o }
{
    if o < 16 { o } else { 32 + o }
}

// Whether an image holds a proper promotion where this argument is placed.
pub fn is_proper(image: &[u8], place: Placement) -> bool
    requires { Fit place (length image.now) }
    ensures { result ≡ proper (extension place.kind) place.kind.size (gather image.now (carriers place)) }
{
    let signed = match place.kind.class {
        Class::Signed => true,
        Class::Unsigned => false,
        _ => return true,
    };
    let w = words::word_at(image, position(place.offset));
    if place.kind.size == 1 {
        words::is_promoted::<u8>(w, signed)
    } else {
        words::is_promoted::<u16>(w, signed)
    }
}

// Bytes at an offset: those below 16 from the register words, the rest from the area.
pub fn get_plain(image: &[u8], o: usize, out: &mut [u8])
    requires in_bounds { (48 ≤ length image.now) × (32 + (o + length out.old) ≤ length image.now) }
    ensures { out.new ≡ gather image.now (map carrier (run o (length out.old))) }
{
    let size = out.len();
    if 16 <= o {
        places::copy(out, &image[32 + o..32 + o + size]);
        return;
    }
    let low = 16 - o;
    if size <= low {
        places::copy(out, &image[o..o + size]);
        return;
    }
    let (first, rest) = out.split_at_mut(low);
    places::copy(first, &image[o..16]);
    places::copy(rest, &image[48..48 + (size - low)]);
}

// A float from the word of its register, or a double from those of its pair.
fn get_float(image: &[u8], register: usize, out: &mut [u8])
    requires floating { Floating register (length out.old) }
    requires in_bounds { 32 ≤ length image.now }
    ensures { out.new ≡ gather image.now (float_bytes register (length out.old)) }
{
    let even = 4 * register - 32; // the image byte where the register's word starts
    if out.len() == 8 {
        let odd = even + 4;
        let (high, low) = out.split_at_mut(4);
        places::copy(high, &image[odd..odd + 4]); // the high half, from the odd register
        places::copy(low, &image[even..even + 4]); // the low half, from the even one
        return;
    }
    places::copy(out, &image[even..even + 4]);
}

// The body of an argument.
pub fn get_body(image: &[u8], place: Placement, out: &mut [u8])
    requires fit { Fit place (length image.now) }
    requires body_length { length out.old ≡ place.kind.size }
    ensures { out.new ≡ body place.kind.size (gather image.now (carriers place)) }
{
    if place.register != 0 {
        get_float(image, place.register, out);
        return;
    }
    let size = out.len();
    let width = o32_offsets::width_of(place.kind);
    if size < width {
        let start = position(place.offset) + (width - size);
        places::copy(out, &image[start..start + size]);
        return;
    }
    get_plain(image, place.offset, out);
}

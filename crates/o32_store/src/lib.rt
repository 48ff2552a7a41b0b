// The register block, an array of eight words passed and returned by value, as document 01 names the form, and the stores of one argument into it and into
// the area.
#![tactic(auto)]

ghost use Rattle.std.specs.Prelude.{map, ◌≡◌, ◌%◌, ◌+◌, ◌-◌, ◌<◌, ◌≤◌, drop, length, set, take};
ghost use Rattle.words.specs.Words.{bytes_of, promote, to_word, bytes_of_words};
ghost use Rattle.places.specs.Places.{put, run};
ghost use Rattle.o32_offsets.specs.Offsets.{extension};
ghost use Rattle.o32.specs.O32.{carrier, carriers, end_most, float_bytes};
ghost use Rattle.o32_store.specs.Block.{bytes_in_word, whole};
ghost use Rattle.o32_laws.specs.Fitting.{Fit, Floating};

use kinds::Class;
use o32::Placement;

// An offset below is a multiple of 4, as that of every placement that fits (`Fit`); the functions have the offset alone.

// The word that a byte or halfword becomes; which it is, a flag says, as in the definition `to_word`.
fn promoted(body: &[u8], signed: bool) -> u32
    requires { (1 ≤ length body.now) × (length body.now ≤ 2) }
    ensures { bytes_of 4 result ≡ promote (to_word signed (length body.now)) body.now }
{
    match body {
        [byte] => words::promote(*byte, signed),
        [first, second] => words::promote(u16::from_be_bytes([*first, *second]), signed),
        _ => unreachable!(),
    }
}

// The block's words into the first 32 bytes of the image.
pub fn write_block(block: [u32; 8], out: &mut [u8])
    requires { 32 ≤ length out.old }
    ensures { out.new ≡ whole block out.old }
{
    for i in 0..8 {
        words::write_word(out, i * 4, block[i]);
    }
}

// A word with its byte k, counted from the first, replaced.
fn with_byte(w: u32, k: usize, b: u8) -> u32
    requires { k < 4 }
    ensures { bytes_of 4 result ≡ set (bytes_of 4 w) k b }
{
    let mut bytes = w.to_be_bytes();
    bytes[k] = b;
    u32::from_be_bytes(bytes)
}

// A word with its first one to three bytes replaced by those of a body. The last of them first: else the compiler shares the load
// of the first byte with `low_word`, and loads whole words by the byte as well.
fn with_start(w: u32, body: &[u8]) -> u32
    requires { (1 ≤ length body.now) × (length body.now ≤ 3) }
    ensures { bytes_of 4 result ≡ put (bytes_of 4 w) (run 0 (length body.now)) body.now }
{
    let mut next = w;
    if 2 < body.len() {
        next = with_byte(next, 2, body[2]);
    }
    if 1 < body.len() {
        next = with_byte(next, 1, body[1]);
    }
    with_byte(next, 0, body[0])
}

// The block's word at byte p, so far w, once a body is stored from byte o on; o and p are multiples of 4.
fn low_word(w: u32, p: usize, o: usize, body: &[u8]) -> u32
    ensures { bytes_of 4 result ≡ put (bytes_of 4 w) (run 0 (bytes_in_word o (length body.now) p)) (take (bytes_in_word o (length body.now) p) (drop (p - o) body.now)) }
{
    if p < o {
        return w;
    }
    let i = p - o;
    if body.len() <= i {
        return w;
    }
    let rest = &body[i..];
    if rest.len() < 4 {
        return with_start(w, rest);
    }
    words::word_at(rest, 0)
}

// A body into the block, from its byte o on, word by word. The loop counts the words of `$4` to `$7`, and not those from
// o on: at an index that the compiler does not know it stores the word to memory and loads the block again, and has to wait.
fn put_low(block: [u32; 8], o: usize, body: &[u8]) -> [u32; 8]
    requires o_value { o % 4 ≡ 0 }
    requires body_bound { o + length body.now ≤ 16 }
    ensures { bytes_of_words result ≡ put (bytes_of_words block) (run o (length body.now)) body.now }
{
    let mut next = block;
    for k in 0..4 {
        next[k] = low_word(next[k], 4 * k, o, body);
    }
    next
}

// The block with the word of register 4 + j replaced, at an index that the compiler knows, as in `put_low`.
fn with_word(block: [u32; 8], j: usize, w: u32) -> [u32; 8]
    requires { j < 4 }
    ensures { result ≡ set block j w }
{
    let mut next = block;
    match j {
        0 => next[0] = w,
        1 => next[1] = w,
        2 => next[2] = w,
        _ => next[3] = w,
    }
    next
}

// A word of the arguments' structure: below offset 16 in the block, else in the area.
fn put_word(block: [u32; 8], out: &mut [u8], o: usize, w: u32) -> [u32; 8]
    requires o_value { o % 4 ≡ 0 }
    requires o_le_end_most { (o ≤ end_most) × (36 + o ≤ length out.old) }
    ensures { whole result out.new ≡ put (whole block out.old) (map carrier (run o 4)) (bytes_of 4 w) }
{
    if o < 16 {
        return with_word(block, o / 4, w);
    }
    words::write_word(out, 32 + o, w);
    block
}

// A float into the word of its register, or a double into those of its pair.
fn put_float(block: [u32; 8], register: usize, body: &[u8]) -> [u32; 8]
    requires { Floating register (length body.now) }
    ensures { bytes_of_words result ≡ put (bytes_of_words block) (float_bytes register (length body.now)) body.now }
{
    let i = register - 8;
    let first = words::word_at(body, 0);
    let mut next = block;
    if body.len() == 8 {
        let second = words::word_at(body, 4);
        next[i + 1] = first; // the high half, in the odd register
        next[i] = second; // the low half, in the even one
        return next;
    }
    next[i] = first;
    next
}

// A body at an offset: its bytes below 16 into the block, the rest into the area.
fn put_plain(block: [u32; 8], out: &mut [u8], o: usize, body: &[u8]) -> [u32; 8]
    requires o_value { o % 4 ≡ 0 }
    requires in_bounds { (48 ≤ length out.old) × (32 + (o + length body.now) ≤ length out.old) }
    ensures { whole result out.new ≡ put (whole block out.old) (map carrier (run o (length body.now))) body.now }
{
    let size = body.len();
    if 16 <= o {
        places::copy(&mut out[32 + o..32 + o + size], body);
        return block;
    }
    let low = 16 - o;
    if size <= low {
        return put_low(block, o, body);
    }
    places::copy(&mut out[48..48 + (size - low)], &body[low..]);
    put_low(block, o, &body[..low])
}

// An argument's body after promotion, at the image bytes that carry it.
pub fn put_argument(block: [u32; 8], out: &mut [u8], place: Placement, body: &[u8]) -> [u32; 8]
    requires fit { Fit place (length out.old) }
    requires body_length { length body.now ≡ place.kind.size }
    ensures { whole result out.new ≡ put (whole block out.old) (carriers place) (promote (extension place.kind) body.now) }
{
    if place.register != 0 {
        return put_float(block, place.register, body);
    }
    match place.kind.class {
        Class::Signed => put_word(block, out, place.offset, promoted(body, true)),
        Class::Unsigned => put_word(block, out, place.offset, promoted(body, false)),
        _ => put_plain(block, out, place.offset, body),
    }
}

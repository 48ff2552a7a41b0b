// What a mask names; the `addiu` of a prologue; and instructions on save words, upward into a code buffer: the stores of a prologue or
// the loads of an epilogue. `op` is the instruction's word with register 0 and offset 0; `swc1`'s is the largest. (What is written is
// promised for any such word, so no enum of the four stands for it.)
#![tactic(auto)]

ghost use Rattle.std.specs.Prelude.{[], ◌∷◌, map, ◌≡◌, ◌%◌, ◌*◌, ◌+◌, ◌-◌, ◌<◌, ◌≤◌, length};
ghost use Rattle.std.proofs.lemmas.List.Edits.{sets};
ghost use Rattle.frame.specs.Masks.{count_below, names};
ghost use Rattle.frame.specs.Frame.{frame_most};
ghost use Rattle.words.specs.Words.{bytes_of_words};
ghost use Rattle.frame.specs.Words.{collect, lowering, pair_at, register_at, word_of};
ghost use Rattle.frame_words.specs.Limits.{offset_most, op_most, start_most};

// Whether a mask names register k.
pub fn is_named(mask: u32, k: u32) -> bool
    requires { k < 32 }
    ensures { result ≡ names mask k }
{
    (mask >> k) % 2 == 1
}

// How many registers below k a mask names.
pub fn count_below(mask: u32, k: u32) -> u32
    requires { k < 32 }
    ensures { (result ≡ count_below mask k) × (result ≤ k) }
{
    u32::count_ones(mask % (1 << k))
}

// The instruction on a register's save word.
pub fn word(op: u32, number: u32, offset: u32) -> u32
    requires { (op ≤ op_most) × (number < 32) × (offset ≤ offset_most) }
    ensures { result ≡ op + 65536 * number + offset }
{
    op + 65536 * number + offset
}

// The low 16 bits of -f, through a signed halfword, as document 01 has it.
fn negate(f: u32) -> u32
    requires { (0 < f) × (f ≤ frame_most) }
    ensures { result ≡ 65536 - f }
{
    let n = -(f as i16);
    n.cast_unsigned() as u32
}

// `addiu $sp,$sp,-f`.
pub fn lower_sp(f: u32) -> u32
    requires { (0 < f) × (f ≤ frame_most) }
    ensures { result ≡ lowering f }
{
    0x27BD_0000 + negate(f)
}

// The functions below store at a place, and the last two answer the next one: a struct with the buffer in it would be taken apart at each
// store.

// Two words at a place.
pub fn put_two_words(out: &mut [u8], at: usize, first: u32, second: u32)
    requires { at + 8 ≤ length out.old }
    ensures { out.new ≡ sets out.old at (bytes_of_words (first ∷ second ∷ [])) }
{
    words::write_word(out, at, first);
    words::write_word(out, at + 4, second);
}

// The two instructions on pair k, whose save words lie at an offset.
fn put_pair(out: &mut [u8], at: usize, op: u32, offset: u32, k: u32)
    requires { (op ≤ op_most) × (offset + 4 ≤ offset_most) × (k < 6) × (at + 8 ≤ length out.old) }
    ensures { out.new ≡ sets out.old at (bytes_of_words ((op + 65536 * (20 + 2 * k) + offset) ∷ (op + 65536 * (21 + 2 * k) + (offset + 4)) ∷ [])) }
{
    let even = word(op, 20 + 2 * k, offset);
    let odd = word(op, 21 + 2 * k, offset + 4);
    put_two_words(out, at, even, odd);
}

// The instructions on the pairs that a mask names, whose save area starts at an offset; the place after them. The save words lie
// without gaps, so the next one's offset is carried along. For registers a function of its own is plainer: one for both would be passed
// the bytes, the first bit and the words of each.
pub fn put_pairs(out: &mut [u8], at: usize, op: u32, mask: u32, start: u32) -> usize
    requires op_le_op_most { (op ≤ op_most) × (start ≤ start_most) }
    requires mask_in_bounds { at + 8 * count_below mask 6 ≤ length out.old }
    ensures value { result ≡ at + 8 * count_below mask 6 }
    ensures out_after { out.new ≡ sets out.old at (bytes_of_words (map (word_of op) (collect (pair_at start mask) mask 6))) }
{
    let mut n = at;
    let mut offset = start;
    for k in 0..6 {
        if is_named(mask, k) {
            put_pair(out, n, op, offset, k);
            n += 8;
            offset += 8;
        }
    }
    n
}

// The instructions on the general registers that a mask names, in a save area that starts at an offset; the place after them.
// No register below $16 is ever saved, so none is looked for there.
pub fn put_registers(out: &mut [u8], at: usize, op: u32, mask: u32, start: u32) -> usize
    requires op_le_op_most { (op ≤ op_most) × (start ≤ start_most) }
    requires mask_in_bounds { at + 4 * count_below mask 32 ≤ length out.old }
    requires mask_value { mask % 65536 ≡ 0 }
    ensures value { result ≡ at + 4 * count_below mask 32 }
    ensures out_after { out.new ≡ sets out.old at (bytes_of_words (map (word_of op) (collect (register_at start mask) mask 32))) }
{
    let mut n = at;
    for k in 16..32 {
        if is_named(mask, k) {
            words::write_word(out, n, word(op, k, start + 4 * count_below(mask, k)));
            n += 4;
        }
    }
    n
}

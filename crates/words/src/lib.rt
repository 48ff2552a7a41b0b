// Words and their bytes. Placement rule 1: bytes and halfwords become words, through signed types.
#![tactic(auto)]

ghost use Rattle.std.specs.Prelude.{◌≡◌, ℕ, ◌+◌, ◌%◌, ◌^◌, ◌<◌, ◌≤◌, drop, length, take};
ghost use Rattle.std.proofs.lemmas.List.Edits.{sets};
ghost use Rattle.std.specs.Int.{Width, w16, w32, w8};
ghost use Rattle.std.proofs.Common.{rules, to_z};
ghost use mir.Val.{bits, bytes};
ghost use Rattle.words.specs.Words.{bytes_of, promote, proper, to_word};

// A body narrower than a word: a byte or a halfword.
pub trait Narrow: Sized {
    // how wide it is
    ghost width: { Width };

    // the number that its bits are
    ghost bits_of: { Self → ℕ };

    // The signed number with the same bits.
    fn signed(self) -> i32
        ensures value { result ≡ to_z width (bits_of self) }
        ensures in_width { bits_of self < 2 ^ bits width };

    // The number that its bits are.
    fn unsigned(self) -> u32
        ensures value { result ≡ bits_of self }
        ensures in_width { bits_of self < 2 ^ bits width };

    // The last bytes of a word.
    fn last_of(w: u32) -> Self
        ensures { bits_of result ≡ w % 2 ^ bits width };

    ghost narrower: { bytes width ≤ 4 };
}

impl Narrow for u8 {
    ghost width = { w8 };

    ghost bits_of = { λ b. b };

    ghost narrower = { Prim.search rules };

    fn signed(self) -> i32 {
        let byte: i8 = self.cast_signed();
        byte as i32
    }

    fn unsigned(self) -> u32 {
        self as u32
    }

    fn last_of(w: u32) -> u8 {
        (w % 256) as u8
    }
}

impl Narrow for u16 {
    ghost width = { w16 };

    ghost bits_of = { λ h. h };

    ghost narrower = { Prim.search rules };

    fn signed(self) -> i32 {
        let halfword: i16 = self.cast_signed();
        halfword as i32
    }

    fn unsigned(self) -> u32 {
        self as u32
    }

    fn last_of(w: u32) -> u16 {
        (w % 65536) as u16
    }
}

// The word that a signed or unsigned body becomes; which it is, a flag says, as in the definition `to_word`.
pub fn promote<T: Narrow>(body: T, signed: bool) -> u32
    ensures { bytes_of 4 result ≡ promote (to_word signed (bytes T.width)) (bytes_of (bytes T.width) (T.bits_of body)) }
{
    if signed {
        body.signed().cast_unsigned()
    } else {
        body.unsigned()
    }
}

// Whether a word is the proper promotion of the body in its last bytes.
pub fn is_promoted<T: Narrow>(w: u32, signed: bool) -> bool
    ensures { result ≡ proper (to_word signed (bytes T.width)) (bytes T.width) (bytes_of 4 w) }
{
    promote(T::last_of(w), signed) == w
}

// A word big-endian at a place of a buffer that goes on behind it.
pub fn write_word(out: &mut [u8], at: usize, w: u32)
    requires { at + 4 ≤ length out.old }
    ensures { out.new ≡ sets out.old at (bytes_of 4 w) }
{
    out[at..at + 4].copy_from_slice(&w.to_be_bytes());
}

// The big-endian word at a place, likewise.
pub fn word_at(src: &[u8], at: usize) -> u32
    requires { at + 4 ≤ length src.now }
    ensures { bytes_of 4 result ≡ take 4 (drop at src.now) }
{
    u32::from_be_bytes([src[at], src[at + 1], src[at + 2], src[at + 3]])
}

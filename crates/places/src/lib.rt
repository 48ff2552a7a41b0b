// Bytes of one slice into another.
#![tactic(auto)]

ghost use Rattle.std.specs.Prelude.{◌≡◌, length};

// The bytes of one slice into another of the same length.
pub fn copy(out: &mut [u8], src: &[u8])
    requires { length src.now ≡ length out.old }
    ensures { out.new ≡ src.now }
{
    // Most arguments have four bytes. They are moved as a word, since a run of any length is a call of `memmove`.
    if src.len() == 4 {
        words::write_word(out, 0, words::word_at(src, 0));
        return;
    }
    out.copy_from_slice(src);
}

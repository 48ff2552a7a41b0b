// What is printed of a case: its line, and below it the answer, which is the refusal, the bytes that were written, their number, and
// whether every other byte of the buffer is kept.
//
// Of what is printed the language has nothing to promise, so the functions that print answer how long the text is that they write, or
// where the line ends; and the walk over the lines of a text runs the case of each.
#![tactic(auto)]

ghost use Rattle.std.specs.Prelude.{cond, ◌||◌, [], ◌∷◌, ◌++◌, ◌≡◌, ◌%◌, ◌*◌, ◌+◌, ◌<◌, ◌≤◌, eqb, length, replicate, take};
ghost use Rattle.case_output.specs.AnswerText.{answer_text, byte_text, bytes_text, is_kept, kept_text, line_length, refusal_part};
ghost use Rattle.text.specs.Text.{decimal, hex_text};

use answers::Answer;

// Where the text of the cases comes from, and where the answers go.
const STDIN_FILENO: i32 = 0;

const STDOUT_FILENO: i32 = 1;

// What every byte of a case's buffer is before the call.
const FILL: u8 = 0xA5;

// Such a buffer. (Its length is said apart, since lending it as a slice asks for that.)
pub fn fresh_buffer() -> [u8; 4096]
    ensures value { result ≡ replicate 4096 165 }
    ensures value_2 { 4096 ≡ length result }
{
    [FILL; 4096]
}

// A byte, where it is wanted, into a buffer at a place; the place after it. (Texts are laid one after the other into a lent buffer,
// since none may be allocated.)
fn put_if(wanted: bool, byte: u8, text: &mut [u8], at: usize) -> usize
    requires { at < length text.old }
    ensures upper_bound { result ≤ at + 1 }
    ensures text_after { take result text.new ≡ take at text.old ++ cond wanted (byte ∷ []) [] }
{
    if wanted {
        text[at] = byte;
        return at + 1;
    }
    at
}

// Whether a line ends after so many bytes of so many: after four words, and at the end.
fn ends_line(end: usize, length: usize) -> bool
    ensures { result ≡ (eqb (end % 16) 0 || eqb end length) }
{
    end % 16 == 0 || end == length
}

// One of some bytes as hex digits, with the space before a word and the newline that ends a line.
fn put_byte(bytes: &[u8], i: usize, text: &mut [u8], at: usize) -> usize
    requires i_in_bounds { i < length bytes.now }
    requires at_in_bounds { at + 4 ≤ length text.old }
    ensures upper_bound { result ≤ at + 4 }
    ensures text_after { take result text.new ≡ take at text.old ++ byte_text bytes.now i }
{
    let word = put_if(i % 4 == 0, b' ', text, at);
    let byte = bytes[i];
    let digits = [text::high_digit(byte), text::low_digit(byte)];
    let end = text::put(&digits, text, word);
    let last = ends_line(i + 1, bytes.len());
    put_if(last, b'\n', text, end)
}

// Bytes as lines of four words: of an image $4 to $7, then $f12 to $f15, then the area.
fn put_bytes(bytes: &[u8], text: &mut [u8], at: usize) -> usize
    requires { at + 4 * length bytes.now ≤ length text.old }
    ensures upper_bound { result ≤ at + 4 * length bytes.now }
    ensures text_after { take result text.new ≡ take at text.old ++ bytes_text bytes.now (length bytes.now) }
{
    let mut end = at;
    for i in 0..bytes.len() {
        end = put_byte(bytes, i, text, end);
    }
    end
}

// The line of a refusal, if there is one, at the start of a buffer; its length.
fn put_refusal(number: u32, place: usize, argument: usize, text: &mut [u8]) -> usize
    requires { 83 ≤ length text.old }
    ensures upper_bound { result ≤ 83 }
    ensures text_after { take result text.new ≡ refusal_part number place argument }
{
    if number == 0 && place == 0 && argument == 0 {
        return 0;
    }
    text::put_refusal(number, place, argument, text)
}

// Whether every byte is as it was before.
fn is_kept(out: &[u8]) -> bool
    ensures { result ≡ is_kept out.now }
{
    out.iter().all(|b| *b == FILL)
}

// What is said of the bytes after the answer's, by a flag, as in `put_if`: one text or the other is put, and no step chosen.
fn put_kept(kept: bool, text: &mut [u8], at: usize) -> usize
    requires { at + 10 ≤ length text.old }
    ensures upper_bound { result ≤ at + 10 }
    ensures text_after { take result text.new ≡ take at text.old ++ kept_text kept }
{
    if kept {
        return text::put(b", kept\n", text, at);
    }
    text::put(b", CHANGED\n", text, at)
}

// An answer and the buffer that it left as text, at the start of a buffer; its length.
fn put_answer(answer: Answer, out: &[u8], text: &mut [u8]) -> usize
    requires { 120 + 4 * length out.now ≤ length text.old }
    ensures upper_bound { result ≤ length text.new }
    ensures text_after { take result text.new ≡ answer_text answer out.now }
{
    let length = answer.length;
    let first = put_refusal(answer.refusal, answer.place, answer.argument, text);
    let shown = length.min(out.len());
    let second = put_bytes(&out[..shown], text, first);
    let third = text::put_number(b"length ", length as u64, text, second);
    let kept = is_kept(&out[shown..]);
    put_kept(kept, text, third)
}

// Prints a text; its length.
pub fn print(text: &[u8]) -> usize
    ensures { result ≡ length text.now }
{
    io::write_all(STDOUT_FILENO, text);
    text.len()
}

// Prints a name and after it a number in decimal; the length of both.
pub fn print_number(name: &[u8], n: u64) -> usize
    ensures { result ≡ length (name.now ++ decimal n) }
{
    let mut digits = [0u8; 20];
    let many = text::put_number(b"", n, &mut digits, 0);
    print(name) + print(&digits[..many])
}

// Prints a name and after it a byte as two hex digits; the length of both.
pub fn print_byte(name: &[u8], byte: u8) -> usize
    ensures { result ≡ length (name.now ++ hex_text byte) }
{
    print(name) + print(&[text::high_digit(byte), text::low_digit(byte)])
}

// Prints an answer, of any four numbers, and the buffer that it left; the length of the text.
pub fn print_answer(answer: Answer, out: &[u8; 4096]) -> usize
    ensures { result ≡ length (answer_text answer out.now) }
{
    let mut text = [0u8; 16504];
    let n = put_answer(answer, out, &mut text);
    print(&text[..n])
}

// Prints the line of a refusal of any number, if there is one; its length.
pub fn print_refusal(number: u32, place: usize, argument: usize) -> usize
    ensures { result ≡ length (refusal_part number place argument) }
{
    let mut text = [0u8; 83];
    let n = put_refusal(number, place, argument, &mut text);
    print(&text[..n])
}

// Prints the line at the start of a text; the place where it ends.
pub fn print_line(text: &[u8]) -> usize
    ensures value { result ≡ line_length text.now }
    ensures upper_bound { result ≤ length text.now }
{
    let end = case_input::find(text, b'\n').unwrap_or(text.len());
    print(&text[..end]);
    print(b"\n");
    end
}

// Prints each line of a text, and runs the case of each that is not empty and no comment. A line of another form has no case.
fn run_lines<F: Fn(&[u8]) -> Option<()>>(text: &[u8], run: F)
    requires { (line : _) → 1 ≤ length line.now → F.pre run line }
{
    let mut at = 0;
    // The step is the length of each line, which `for` cannot say.
    while at < text.len() {
        let end = at + print_line(&text[at..]);
        if at < end && text[at] != b'#' && run(&text[at..end]).is_none() {
            print(b"malformed\n");
        }
        at = end + 1;
    }
}

// Runs the cases of the text on standard input, of which the first N bytes are read; how many bytes were read.
pub fn run_input<const N: usize, F: Fn(&[u8]) -> Option<()>>(run: F) -> usize
    requires text_bound { N ≤ 131072 }
    requires line_suits { (line : _) → 1 ≤ length line.now → F.pre run line }
    ensures { result ≤ N }
{
    let mut text = [0u8; N];
    let n = io::read_full(STDIN_FILENO, &mut text);
    run_lines(&text[..n], run);
    n
}

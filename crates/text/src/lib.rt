// Text for standard output: hex digits, the words of an image, and the line of a refusal.
#![tactic(auto)]

ghost use Rattle.std.specs.Prelude.{◌++◌, ◌≡◌, ◌%◌, ◌+◌, ◌/◌, ◌<◌, ◌≤◌, length, take};
ghost use Rattle.std.proofs.Math.Seq.{paste};
ghost use Rattle.text.specs.Text.{stored_length, decimal, hex_digit, image_text, line_at, refusal_text, stored};

// A digit below 16 as a character: 0 to 9, then A to F.
fn hex_digit(d: u8) -> u8
    requires { d < 16 }
    ensures { result ≡ hex_digit d }
{
    if d < 10 { 48 + d } else { 55 + d }
}

// The higher hex digit of a byte. (One function for both digits would be passed a divisor and be no plainer.)
pub fn high_digit(b: u8) -> u8
    ensures { result ≡ hex_digit (b / 16) }
{
    hex_digit(b / 16)
}

// The lower hex digit of a byte.
pub fn low_digit(b: u8) -> u8
    ensures { result ≡ hex_digit (b % 16) }
{
    hex_digit(b % 16)
}

// A text into a buffer from a place on; the place after it. (A `Display` would need a writer into a lent slice besides, and a struct with
// the buffer in it would be taken apart at each text.)
pub fn put(text: &[u8], out: &mut [u8], at: usize) -> usize
    requires { at + length text.now ≤ length out.old }
    ensures value { result ≡ at + length text.now }
    ensures out_after { out.new ≡ paste out.old at text.now (length text.now) }
{
    let end = at + text.len();
    out[at..end].copy_from_slice(text);
    end
}

// The line of the word that starts at a byte of an image, as the definition `line_at` has it: eight hex digits and a newline.
fn line(image: &[u8], at: usize) -> [u8; 9]
    requires { at + 4 ≤ length image.now }
    ensures { result ≡ line_at image.now at }
{
    let a = image[at];
    let b = image[at + 1];
    let c = image[at + 2];
    let d = image[at + 3];
    [
        high_digit(a),
        low_digit(a),
        high_digit(b),
        low_digit(b),
        high_digit(c),
        low_digit(c),
        high_digit(d),
        low_digit(d),
        b'\n',
    ]
}

// Each whole word of an image as a line, at the start of a buffer; their length, or `None` where the buffer is too short.
pub fn image_text(image: &[u8], out: &mut [u8]) -> Option<usize>
    ensures value { result ≡ stored_length (image_text image.now) (length out.old) }
    ensures out_after { out.new ≡ stored (image_text image.now) out.old }
{
    let words = image.len() / 4;
    if out.len() / 9 < words {
        return None;
    }
    for i in 0..words {
        let text = line(image, 4 * i);
        put(&text, out, 9 * i);
    }
    Some(9 * words)
}

// A text and after it a number in decimal, of at most 20 digits, into a buffer from a place on; the place after them.
pub fn put_number(text: &[u8], number: u64, out: &mut [u8], at: usize) -> usize
    requires { at + length text.now + 20 ≤ length out.old }
    ensures upper_bound { result ≤ at + length text.now + 20 }
    ensures out_after { take result out.new ≡ take at out.old ++ text.now ++ decimal number }
{
    let mut digits = [0u8; 20];
    let n = io::decimal(number, &mut digits);
    let next = put(text, out, at);
    put(&digits[..n], out, next)
}

// "refused N at P argument K", for any number N, and a newline, at the start of a buffer; its length, at most 23 bytes and three numbers of 20 digits.
pub fn put_refusal(number: u32, place: usize, argument: usize, out: &mut [u8]) -> usize
    requires { 83 ≤ length out.old }
    ensures upper_bound { result ≤ 83 }
    ensures out_after { take result out.new ≡ refusal_text number place argument }
{
    let second = put_number(b"refused ", number as u64, out, 0);
    let third = put_number(b" at ", place as u64, out, second);
    let end = put_number(b" argument ", argument as u64, out, third);
    put(b"\n", out, end)
}

// The same line; its length, or `None` where the buffer is too short.
pub fn refusal_text(number: u32, place: usize, argument: usize, out: &mut [u8]) -> Option<usize>
    ensures value { result ≡ stored_length (refusal_text number place argument) (length out.old) }
    ensures out_after { out.new ≡ stored (refusal_text number place argument) out.old }
{
    // The line is made apart, since a buffer that is too short stays as it was.
    let mut line = [0u8; 83];
    let n = put_refusal(number, place, argument, &mut line);
    if out.len() < n {
        return None;
    }
    Some(put(&line[..n], out, 0))
}

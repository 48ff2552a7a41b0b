// The lines of a text of cases, and the numbers and bytes in them.
#![tactic(auto)]

ghost use Rattle.std.specs.Prelude.{◌≡◌, ◌+◌, ◌<◌, ◌≤◌, length, IfSome, IsSome};
ghost use Rattle.case_input.specs.Lines.{after_word, device_of, digit_of, field, field_length, first_field, letter_of, number_at, pair_lengths, place_of, room_of, second_field, series, series_at, series_by_sign, with_field};

use device::Device;

// A decimal number in a text, and the place after it.
#[derive(Clone, Copy)]
pub struct Number {
    pub value: usize,
    pub end: usize,
}

// A pair of hex digits with its sign and number: its byte, how many bytes it makes, by how much each is more than the last, and the
// place after it.
#[derive(Clone, Copy)]
struct Series {
    byte: u8,
    count: usize,
    step: u8,
    end: usize,
}

// The value of a hex digit in upper case.
fn digit(c: u8) -> Option<u8>
    ensures value { result ≡ digit_of c }
    ensures upper_bound { IfSome result (λ d. d < 16) }
{
    match c {
        b'0'..=b'9' => Some(c - b'0'),
        b'A'..=b'F' => Some(c - b'A' + 10),
        _ => None,
    }
}

// The first place of a byte.
pub fn find(text: &[u8], byte: u8) -> Option<usize>
    ensures value { result ≡ place_of byte text.now }
    ensures in_bounds { IfSome result (λ at. at < length text.now) }
{
    text.iter().position(|b| *b == byte)
}

// What the functions below answer are places in the whole text, so they have it and a place.

// The decimal number at a place, of at least one digit and below 10,000.
fn number_at(text: &[u8], from: usize) -> Option<Number>
    requires { from ≤ length text.now }
    ensures value { result ≡ number_at text.now from }
    ensures from_lt_end { IfSome result (λ n. from < n.end) }
{
    let mut value = 0;
    let mut end = from;
    for c in &text[from..] {
        if !c.is_ascii_digit() {
            break;
        };
        if value > 999 {
            return None;
        }
        value = value * 10 + (*c - b'0') as usize;
        end += 1;
    }
    if end == from {
        return None;
    }
    Some(Number { value, end })
}

// The series of a byte, by the sign and the number after its digits, where there are any.
fn series_by_sign(line: &[u8], byte: u8, next: usize) -> Option<Series>
    requires { next ≤ length line.now }
    ensures value { result ≡ series_by_sign line.now byte next }
    ensures next_le_end { IfSome result (λ s. next ≤ s.end) }
{
    let step = match line.get(next) {
        Some(b'*') => 0,
        Some(b'+') => 1,
        _ => {
            return Some(Series {
                byte,
                count: 1,
                step: 0,
                end: next,
            });
        }
    };
    let times = number_at(line, next + 1)?;
    Some(Series {
        byte,
        count: times.value,
        step,
        end: times.end,
    })
}

// The series at a place.
fn series_at(line: &[u8], at: usize) -> Option<Series>
    requires { at ≤ length line.now }
    ensures value { result ≡ series_at line.now at }
    ensures at_lt_end { IfSome result (λ s. at < s.end) }
{
    let [high, low, ..] = &line[at..] else {
        return None;
    };
    let byte = 16 * digit(*high)? + digit(*low)?;
    series_by_sign(line, byte, at + 2)
}

// Fills a buffer with bytes, each so much more than the last.
fn put_series(out: &mut [u8], first: u8, step: u8)
    ensures { out.new ≡ series first step (length out.old) }
{
    let mut byte = first;
    for b in out.iter_mut() {
        *b = byte;
        byte = byte.wrapping_add(step);
    }
}

// The bytes of a field into a buffer; their number, where the field is well formed and they fit.
pub fn put_field(text: &[u8], out: &mut [u8]) -> Option<usize>
    ensures value { result ≡ field_length (field text.now) (length out.old) }
    ensures out_after { IsSome result → out.new ≡ with_field (field text.now) out.old }
    ensures in_bounds { IfSome result (λ n. n ≤ length out.new) }
{
    let mut n = 0;
    let mut i = 0;
    // The step is the length of each series, which `for` cannot say.
    while i < text.len() {
        if text[i] == b' ' {
            i += 1;
            continue;
        }
        let s = series_at(text, i)?;
        if out.len() - n < s.count {
            return None;
        }
        let end = n + s.count;
        put_series(&mut out[n..end], s.byte, s.step);
        n = end;
        i = s.end;
    }
    Some(n)
}

// The bytes of two fields with a comma between them into a buffer each; their numbers, where both are well formed and fit.
pub fn put_pair(text: &[u8], first: &mut [u8], second: &mut [u8]) -> Option<(usize, usize)>
    ensures value { result ≡ pair_lengths text.now (length first.old) (length second.old) }
    ensures first_after { IsSome result → first.new ≡ with_field (first_field text.now) first.old }
    ensures second_after { IsSome result → second.new ≡ with_field (second_field text.now) second.old }
    ensures in_bounds { IfSome result (λ n. (n.0 ≤ length first.new) × (n.1 ≤ length second.new)) }
{
    let comma = find(text, b',')?;
    let n = put_field(&text[..comma], first)?;
    let m = put_field(&text[comma + 1..], second)?;
    Some((n, m))
}

// The room of a case, which is the decimal number between a space and a comma, and the place after the comma.
pub fn room(line: &[u8]) -> Option<Number>
    ensures value { result ≡ room_of line.now }
    ensures end_in_bounds { IfSome result (λ n. n.end ≤ length line.now) }
{
    let space = find(line, b' ')?;
    let number = number_at(line, space + 1)?;
    match line.get(number.end) {
        Some(b',') => Some(Number {
            value: number.value,
            end: number.end + 1,
        }),
        _ => None,
    }
}

// What comes after the word of a case, from the first space on.
pub fn after_word(line: &[u8]) -> &[u8]
    ensures { result.now ≡ after_word line.now }
{
    let space = find(line, b' ').unwrap_or(line.len());
    &line[space..]
}

// The device of a case: a word with an n before it names the one without a floating-point unit.
pub fn device_of(line: &[u8]) -> Device
    requires { 1 ≤ length line.now }
    ensures { result ≡ device_of line.now }
{
    match line {
        [b'n', ..] => Device::NoFpu,
        _ => Device::Fpu,
    }
}

// The letter that decides on a case: the first of its line, or the one after an n.
pub fn letter(line: &[u8]) -> u8
    requires { 1 ≤ length line.now }
    ensures { result ≡ letter_of line.now }
{
    match line {
        [b'n', second, ..] => *second,
        [first, ..] => *first,
        [] => unreachable!(),
    }
}

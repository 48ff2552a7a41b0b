// Runs the plans of a text on standard input, one to a line, and prints what make_plan and fill answer, with plans as words.
//
// An empty line, and a line that starts with #, is printed as it is. Any other line is printed with the answer below it:
//
//     plan SIGNATURE                  the plan of a signature
//     fill ROOM, SIGNATURE, LIST      the image of a list by the plan of a signature, in a buffer of ROOM bytes
//     other ROOM, SIGNATURE, LIST     the same, by the plan that the signature has on the other device
//     changed ROOM, SIGNATURE, LIST   the same 98 times, each time by the words of the signature's plan with another of them one higher
//     nplan, nfill, nother, nchanged  the same without a floating-point unit
//
// ROOM is a decimal number, at most 4,096. SIGNATURE and LIST are at most 4,096 bytes, each a pair of hex digits, with spaces between
// them or none. After a pair, *N makes N equal bytes of it, and +N makes N bytes that count up from it. Of the words plan, fill, other
// and changed the first letter decides, after an n the next one. A line that has another form is answered "malformed". Of the text the
// first 16,384 bytes are read.
//
// The answer to plan is the refusal, if there is one; then the count and the area size, and each entry that is not all zero. The answer
// to fill and other is the refusal, or the bytes that were written, 16 to a line; then their number, and whether every other byte of
// the buffer is kept. The answer to changed is how many of the 98 plans were refused 20.
#![tactic(auto)]

ghost use Rattle.std.specs.Prelude.{◌<◌, ◌≤◌, length};

use answers::{Cause, Refusal};
use case_output::{print, print_byte, print_number};
use device::Device;

// One entry of a plan, which stands at this index, if it is not all zero.
fn print_entry(index: usize, kind: u32, offset: u32, register: u32) {
    if kind == 0 && offset == 0 && register == 0 {
        return;
    }
    print_number(b"entry ", index as u64);
    print_byte(b" kind ", (kind % 256) as u8);
    print_number(b" offset ", offset as u64);
    print_number(b" register ", register as u64);
    print(b"\n");
}

// The count, the area size and the entries that are not all zero. All 32 are looked at, so that one past the count would show.
fn print_words(words: [u32; 98]) {
    print_number(b"count ", words[96] as u64);
    print_number(b" area ", words[97] as u64);
    print(b"\n");
    for i in 0..32 {
        let at = 3 * i;
        print_entry(i, words[at], words[at + 1], words[at + 2]);
    }
}

// The plan of a signature. The words of one that is refused are zero here.
fn run_plan(device: Device, field: &[u8]) -> Option<()> {
    let mut signature = io::buffer();
    let n = case_input::put_field(field, &mut signature)?;
    let mut words = [0u32; 98];
    if let Err(refusal) = plans_words::make_plan(device, &signature[..n], &mut words) {
        case_output::print_refusal(refusal.cause.number(), refusal.place, refusal.argument);
    }
    print_words(words);
    Some(())
}

// The device that a plan is made for, by the letter of a word, as the text has it: o asks for the other one.
fn plan_device(word: u8, device: Device) -> Device {
    match (word, device) {
        (b'o', Device::Fpu) => Device::NoFpu,
        (b'o', Device::NoFpu) => Device::Fpu,
        _ => device,
    }
}

// Each function below lends a part of a buffer of its own, so each is given the room.

// The image of a list by the words of a plan, in a buffer of so many bytes.
fn print_fill(device: Device, words: [u32; 98], room: usize, list: &[u8])
    requires { room ≤ 4096 }
{
    let mut out = case_output::fresh_buffer();
    let answer = plans_words::fill(device, &words, list, &mut out[..room]);
    case_output::print_answer(answer.into(), &out);
}

// Whether the plan that has one of these words one higher is refused as another's for a list.
fn is_refused(device: Device, words: [u32; 98], place: usize, room: usize, list: &[u8]) -> bool
    requires place_bound { place < 98 }
    requires room_bound { room ≤ 4096 }
{
    let mut changed = words;
    changed[place] = changed[place].wrapping_add(1);
    let mut out = case_output::fresh_buffer();
    let answer = plans_words::fill(device, &changed, list, &mut out[..room]);
    answer.is_err_and(|refusal| refusal.cause == Cause::OtherPlan)
}

// How many of the 98 plans that have one of these words one higher are refused 20 for a list.
fn print_changed(device: Device, words: [u32; 98], room: usize, list: &[u8])
    requires { room ≤ 4096 }
{
    let refused = (0..98usize)
        .filter(|place| is_refused(device, words, *place, room, list))
        .count();
    print_number(b"refused 20: ", refused as u64);
    print(b" of 98\n");
}

// A case of a signature and a list, by the letter of its word.
fn run_case(word: u8, device: Device, room: usize, fields: &[u8]) -> Option<()>
    requires { room ≤ 4096 }
{
    let mut signature = io::buffer();
    let mut list = io::buffer();
    let (n, m) = case_input::put_pair(fields, &mut signature, &mut list)?;
    let mut words = [0u32; 98];
    let _ = plans_words::make_plan(plan_device(word, device), &signature[..n], &mut words);
    if word == b'c' {
        print_changed(device, words, room, &list[..m]);
    } else {
        print_fill(device, words, room, &list[..m]);
    }
    Some(())
}

// The case of a line, if it has one of these forms. The letters are the text's, so they are matched.
fn run(line: &[u8]) -> Option<()>
    requires { 1 ≤ length line.now }
{
    let device = case_input::device_of(line);
    let word = case_input::letter(line);
    if word == b'p' {
        return run_plan(device, case_input::after_word(line));
    }
    let room = case_input::room(line)?;
    if room.value > 4096 {
        return None;
    }
    match word {
        b'c' | b'f' | b'o' => run_case(word, device, room.value, &line[room.end..]),
        _ => None,
    }
}

fn main() {
    case_output::run_input::<16384, _>(run);
}

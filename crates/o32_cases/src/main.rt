// Runs the cases of a text on standard input, one to a line, and prints what the writer, the reader and the walker answer, and what
// the program `image` prints.
//
// An empty line, and a line that starts with #, is printed as it is. Any other line is printed with the answer below it:
//
//     write ROOM, LIST                the image of a list, in a buffer of ROOM bytes
//     read ROOM, SIGNATURE, IMAGE     the list of an image under a signature, in a buffer of ROOM bytes
//     varargs ROOM, SIGNATURE, IMAGE  what a routine with an ellipsis takes from an image, in a buffer of ROOM bytes
//     nwrite, nread, nvarargs         the same without a floating-point unit
//     print LIST                      what the program `image` prints for a list
//     show LENGTH, BYTES              how an answer of LENGTH bytes is shown, in a buffer that starts with BYTES
//
// ROOM and LENGTH are decimal numbers, at most 4,096. LIST, SIGNATURE, IMAGE and BYTES are at most 4,096 bytes, each a pair of hex
// digits, with spaces between them or none. After a pair, *N makes N equal bytes of it, and +N makes N bytes that count up from it.
// Of the words write, read, varargs, print and show the first letter decides, after an n the next one. A line that has another form
// is answered "malformed".
// Of the text the first 131,072 bytes are read.
//
// The answer is the refusal, or the bytes that were written, 16 to a line; then their number, and whether every other byte of
// the buffer is kept.
#![tactic(auto)]

ghost use Rattle.std.specs.Prelude.{◌≤◌, length};

use answers::Refusal;
use device::Device;

// The writer, of a list, with a buffer of so many bytes.
fn run_write(device: Device, room: usize, field: &[u8]) -> Option<()>
    requires { room ≤ 4096 }
{
    let mut list = io::buffer();
    let n = case_input::put_field(field, &mut list)?;
    let mut out = case_output::fresh_buffer();
    let answer = plans_writer::write_by_plan(device, &list[..n], &mut out[..room]);
    case_output::print_answer(answer.into(), &out);
    Some(())
}

// The reader or the walker, of a signature and an image, with a buffer of so many bytes.
fn run_image<F: Fn(Device, &[u8], &[u8], &mut [u8]) -> Result<usize, Refusal>>(
    take: F,
    device: Device,
    room: usize,
    fields: &[u8],
) -> Option<()>
    requires always { F.IsAlwaysCallable take }
    requires room_bound { room ≤ 4096 }
{
    let mut signature = io::buffer();
    let mut image = io::buffer();
    let (n, m) = case_input::put_pair(fields, &mut signature, &mut image)?;
    let mut out = case_output::fresh_buffer();
    let answer = take(device, &signature[..n], &image[..m], &mut out[..room]);
    case_output::print_answer(answer.into(), &out);
    Some(())
}

// What the program `image` prints for a list.
fn run_print(field: &[u8]) -> Option<()> {
    let mut list = io::buffer();
    let n = case_input::put_field(field, &mut list)?;
    let mut out = [0u8; 2376];
    let length = report::report_text(&list[..n], &mut out);
    case_output::print(&out[..length]);
    Some(())
}

// An answer of so many bytes, in a buffer that starts with the bytes of a field: where more than these are changed, the answer's last
// line says so.
fn run_show(length: usize, field: &[u8]) -> Option<()> {
    let mut out = case_output::fresh_buffer();
    case_input::put_field(field, &mut out)?;
    case_output::print_answer(Ok(length).into(), &out);
    Some(())
}

// The case of a line, if it has one of these forms. The letters are the text's, so they are matched.
fn run(line: &[u8]) -> Option<()>
    requires { 1 ≤ length line.now }
{
    let word = case_input::letter(line);
    if word == b'p' {
        return run_print(case_input::after_word(line));
    }
    let device = case_input::device_of(line);
    let room = case_input::room(line)?;
    if room.value > 4096 {
        return None;
    }
    let fields = &line[room.end..];
    match word {
        b'r' => run_image(o32_image::read, device, room.value, fields),
        b's' => run_show(room.value, fields),
        b'v' => run_image(varargs_code::walk, device, room.value, fields),
        b'w' => run_write(device, room.value, fields),
        _ => None,
    }
}

fn main() {
    case_output::run_input::<131072, _>(run);
}

// Runs the frames and the checks of prologues of a text on standard input, one to a line, and prints what layout, prologue, epilogue
// and check answer.
//
// An empty line, and a line that starts with #, is printed as it is. Any other line is printed with the answer below it:
//
//     frame ROOM, REQUEST     the layout of a frame, its prologue and its epilogue, in buffers of ROOM bytes
//     check REQUEST, CODE     whether code is a prologue for a request
//     nframe, ncheck          the same without a floating-point unit
//
// ROOM is a decimal number, at most 4,096. REQUEST is five words of eight hex digits: leaf (0 is no), bytes of locals, bytes of
// outgoing arguments, general mask, pair mask. CODE is at most 4,096 bytes, each a pair of hex digits, with spaces between them or
// none; after a pair, *N makes N equal bytes of it. Of the words frame and check the first letter decides, after an n the next one:
// c is check, any other frame. A line that has another form is answered "malformed". Of the text the first 65,536 bytes are read.
//
// The answer to frame is the layout's numbers, F and B first and the yes or no for $28 with its offset last, then for prologue and
// epilogue the refusal, or the words that were written; their length in bytes, and whether every other byte of the buffer is kept.
// The answer to check is the refusal, if there is one, and the verdict.
#![tactic(auto)]

ghost use Rattle.std.specs.Prelude.{◌≤◌, length};

use answers::Refusal;
use case_output::{print, print_number};
use device::Device;
use frame::{Frame, Request};

// What is printed of the frame of a request that was refused.
const NO_FRAME: Frame = Frame {
    frame: 0,
    build: 0,
    floating: 0,
    general: 0,
    locals: 0,
    gp: None,
};

// The yes or no for $28, and its offset.
fn print_gp(gp: Option<u32>) {
    match gp {
        Some(offset) => print_number(b", $28 yes ", offset as u64),
        None => print_number(b", $28 no ", 0),
    };
}

fn print_layout(frame: Frame) {
    print_number(b"F ", frame.frame as u64);
    print_number(b", B ", frame.build as u64);
    print_number(b", floating ", frame.floating as u64);
    print_number(b", general ", frame.general as u64);
    print_number(b", locals ", frame.locals as u64);
    print_gp(frame.gp);
    print(b"\n");
}

// The request in five words.
fn request_of(words: &[u8]) -> Request
    requires { 20 ≤ length words.now }
{
    Request {
        leaf: words::word_at(words, 0) != 0,
        locals: words::word_at(words, 4),
        outgoing: words::word_at(words, 8),
        general: words::word_at(words, 12),
        pairs: words::word_at(words, 16),
    }
}

// The prologue or the epilogue of a request, with a buffer of so many bytes.
fn print_code<F: Fn(Device, Request, &mut [u8]) -> Result<usize, Refusal>>(
    code: F,
    device: Device,
    room: usize,
    request: Request,
)
    requires always { F.IsAlwaysCallable code }
    requires room_bound { room ≤ 4096 }
{
    let mut out = case_output::fresh_buffer();
    let answer = code(device, request, &mut out[..room]);
    case_output::print_answer(answer.into(), &out);
}

// The layout, the prologue and the epilogue of a request.
fn print_frame(device: Device, room: usize, request: Request)
    requires { room ≤ 4096 }
{
    match frame_code::layout_of(device, request) {
        Ok(frame) => print_layout(frame),
        Err(cause) => {
            case_output::print_refusal(cause.number(), 0, 0);
            print_layout(NO_FRAME);
        }
    }
    print(b"prologue\n");
    print_code(frame_code::prologue, device, room, request);
    print(b"epilogue\n");
    print_code(frame_code::epilogue, device, room, request);
}

// A frame.
fn run_frame(device: Device, line: &[u8]) -> Option<()> {
    let room = case_input::room(line)?;
    let mut words = [0u8; 20];
    let n = case_input::put_field(&line[room.end..], &mut words)?;
    if n != 20 || room.value > 4096 {
        return None;
    }
    print_frame(device, room.value, request_of(&words));
    Some(())
}

fn print_verdict(verdict: u32) {
    print_number(b"verdict ", verdict as u64);
    print(b"\n");
}

// A check of code, which comes after a comma.
fn run_check(device: Device, line: &[u8]) -> Option<()> {
    let mut words = [0u8; 20];
    let mut code = io::buffer();
    let (n, m) = case_input::put_pair(case_input::after_word(line), &mut words, &mut code)?;
    if n != 20 {
        return None;
    }
    match prologues_code::check_prologue(device, request_of(&words), &code[..m]) {
        Ok(finding) => print_verdict(finding.number()),
        Err(cause) => {
            case_output::print_refusal(cause.number(), 0, 0);
            print_verdict(0);
        }
    }
    Some(())
}

// The case of a line, if it has one of these forms. The letters are the text's, so they are matched.
fn run(line: &[u8]) -> Option<()>
    requires { 1 ≤ length line.now }
{
    let device = case_input::device_of(line);
    if case_input::letter(line) == b'c' {
        return run_check(device, line);
    }
    run_frame(device, line)
}

fn main() {
    case_output::run_input::<65536, _>(run);
}

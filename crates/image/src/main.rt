// Reads an argument list from standard input, at most 2,048 bytes, and prints its call image for the device with a floating-point
// unit, or its refusal. There is no exit status: where the list could not be read, and nothing is printed, or the text could not be
// written, a line on standard error says so.
#![tactic(auto)]

ghost use Rattle.std.specs.Prelude.{IfOk, length, ◌≤◌};

use std::io::Read;
use std::rt::Stdin;

// Where the text of a list goes, and what is said of a list or a text that failed.
const STDOUT_FILENO: i32 = 1;

const STDERR_FILENO: i32 = 2;

// Reads until the buffer is full or the input ends; how many bytes. (`io::read_full` does not tell the end from a read that failed.)
fn read_list(stdin: &mut Stdin, list: &mut [u8]) -> std::io::Result<usize>
    ensures { IfOk result (λ n. n ≤ length list.new) }
{
    let mut done = 0;
    // The step is what each read gives, which `for` cannot say.
    while done < list.len() {
        let more = stdin.read(&mut list[done..])?;
        if more == 0 {
            break;
        }
        done += more;
    }
    Ok(done)
}

fn main(rt: HostRuntime) {
    let mut list = [0u8; 2048];
    let Ok(n) = read_list(&mut rt.stdin(), &mut list) else {
        io::write_all(STDERR_FILENO, b"image: the list could not be read\n");
        return;
    };
    let mut out = [0u8; 2376];
    let length = report::report_text(&list[..n], &mut out);
    if !io::write_all(STDOUT_FILENO, &out[..length]) {
        io::write_all(STDERR_FILENO, b"image: the text could not be written\n");
    }
}

// Runs the descriptions of a text on standard input, one to a line, and prints what is answered to each.
//
// An empty line, and a line that starts with #, is printed as it is. Any other line is printed with the answer below it:
//
//     describe DESCRIPTION     the structure of a description
//
// DESCRIPTION is at most 4,096 bytes, each a pair of hex digits, with spaces between them or none. After a pair, *N makes N equal
// bytes of it, and +N makes N bytes that count up from it. The word before the first space is not looked at. A line with other
// characters is answered "malformed". Of the text the first 16,384 bytes are read.
//
// The answer is the refusal, if there is one; then the size and the alignment, in decimal, and the kind byte.
#![tactic(auto)]

use case_output::{print, print_byte, print_number};
use descriptions::Structure;

// What is printed of a structure that was refused.
const NO_STRUCTURE: Structure = Structure {
    size: 0,
    alignment: 0,
    kind: 0,
};

fn print_structure(structure: Structure) {
    print_number(b"size ", structure.size as u64);
    print_number(b", alignment ", structure.alignment as u64);
    print_byte(b", kind ", structure.kind);
    print(b"\n");
}

// The structure of the description in a line, if it is in such bytes.
fn run(line: &[u8]) -> Option<()> {
    let mut description = io::buffer();
    let n = case_input::put_field(case_input::after_word(line), &mut description)?;
    match descriptions_code::describe(&description[..n]) {
        Ok(structure) => print_structure(structure),
        Err(refusal) => {
            case_output::print_refusal(refusal.cause.number(), refusal.place, refusal.argument);
            print_structure(NO_STRUCTURE);
        }
    }
    Some(())
}

fn main() {
    case_output::run_input::<16384, _>(run);
}

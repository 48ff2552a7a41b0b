// The first walk over the records of a list or a signature. What is refused, and how long the image is, is the same on every device.
#![tactic(auto)]

ghost use Rattle.std.specs.Prelude.{false, true, ◌≡◌, ◌≤◌};
ghost use Rattle.device.specs.declared.Device.{Device};
ghost use Rattle.carried.specs.Convention.{scan};
ghost use Rattle.passes.specs.Found.{found};
ghost use Rattle.passes.specs.Passes.{measured};
ghost use Rattle.o32.specs.O32.{O32, end_most, image_size};
ghost use Rattle.o32_measure.specs.Measured.{refused_at};

use answers::Refusal;
use o32_step::Record;
use passes::Measured;

// A refused record's answer, as that of the whole. (`let else` answers the record whole, so one that was taken has an arm here too, which
// is never meant.)
fn refused(answer: Record, place: usize) -> Result<Measured, Refusal>
    ensures { result ≡ refused_at place answer }
{
    match answer {
        Record::Refused(cause, argument) => Err(Refusal {
            cause,
            place,
            argument,
        }),
        _ => Ok(Measured {
            length: 0,
            image: 0,
        }),
    }
}

// The length of the image of arguments that end here: 32 bytes of registers and the area.
fn image_length(end: usize) -> usize
    requires { end ≤ end_most }
    ensures { result ≡ image_size end }
{
    if end <= 16 {
        48
    } else {
        32 + end.next_multiple_of(8)
    }
}

// The walk over the records of a list (bodies) or of a signature. The two functions below it are names for what the flag says.
pub fn measure(list: &[u8], bodies: bool) -> Result<Measured, Refusal>
    ensures { (d : Device) → found result ≡ measured (O32 d) (scan (O32 d) bodies list.now) }
{
    let mut st = o32_step::start();
    let mut length = 0;
    let mut at = 0; // which moves by the length of each record, so no range says it
    while at < list.len() {
        let left = list.len() - (at + 1);
        let answer = o32_step::take(st, list[at], bodies, left);
        let Record::Taken { kind, next, .. } = answer else {
            return refused(answer, at);
        };
        length = length + 1 + kind.size;
        at = at + 1 + passes::body_length(bodies, kind.size);
        st = next;
    }
    Ok(Measured {
        length,
        image: image_length(st.end),
    })
}

// The records of a list: refusals 1 to 5 with place and argument, or the length of the list and of its image.
pub fn measure_list(list: &[u8]) -> Result<Measured, Refusal>
    ensures { (d : Device) → found result ≡ measured (O32 d) (scan (O32 d) true list.now) }
{
    measure(list, true)
}

// The records of a signature: refusals 1, 2, 3 and 5 with place and argument, or the length of the list and of its image.
pub fn measure_signature(signature: &[u8]) -> Result<Measured, Refusal>
    ensures { (d : Device) → found result ≡ measured (O32 d) (scan (O32 d) false signature.now) }
{
    measure(signature, false)
}

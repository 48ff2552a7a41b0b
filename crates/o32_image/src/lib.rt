// The writer and the reader: an argument list becomes a call image in a lent buffer, and an image its list again.
#![tactic(auto)]

ghost use Rattle.std.specs.Prelude.{◌≡◌, length};
ghost use Rattle.answers.specs.Outcomes.{answer_of, buffer_of, in_numbers};
ghost use Rattle.carried.specs.Convention.{read_into, write_into};
ghost use Rattle.o32.specs.O32.{O32};

use answers::{Cause, Refusal};
use device::Device;

// The call image of a list for a device. Refusals 1 to 5 by record, then 7; no byte is stored before all are decided.
pub fn write(device: Device, list: &[u8], out: &mut [u8]) -> Result<usize, Refusal>
    ensures answer { in_numbers result ≡ answer_of (write_into (O32 device) list.now (length out.old)) }
    ensures buffer { out.new ≡ buffer_of (write_into (O32 device) list.now (length out.old)) out.old }
{
    let image = o32_measure::measure_list(list)?.image;
    if out.len() < image {
        return Err(Cause::BufferTooShort.into()); // the image does not fit
    }
    o32_writer::lay(device, list, out, image);
    Ok(image)
}

// The list of an image under a signature, for a device. Refusals 1, 2, 3 and 5 by record, then 6, 7, 8; no byte is stored before
// all are decided.
pub fn read(
    device: Device,
    signature: &[u8],
    image: &[u8],
    out: &mut [u8],
) -> Result<usize, Refusal>
    ensures answer { in_numbers result ≡ answer_of (read_into (O32 device) signature.now image.now (length out.old)) }
    ensures buffer { out.new ≡ buffer_of (read_into (O32 device) signature.now image.now (length out.old)) out.old }
{
    let measured = o32_measure::measure_signature(signature)?;
    if image.len() != measured.image {
        return Err(Cause::ImageLength.into());
    }
    if out.len() < measured.length {
        return Err(Cause::BufferTooShort.into()); // the list does not fit
    }
    o32_reader::deliver(device, signature, image, out)?;
    Ok(measured.length)
}

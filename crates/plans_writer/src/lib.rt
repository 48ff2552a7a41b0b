// An image of a list that is sent once, for callers that have the list alone: its signature, the plan of that, and an image by the
// plan. It answers what the writer answers.
#![tactic(auto)]

ghost use Rattle.std.specs.Prelude.{◌≡◌, length};
ghost use Rattle.answers.specs.Outcomes.{answer_of, buffer_of, in_numbers};
ghost use Rattle.carried.specs.Convention.{write_into};
ghost use Rattle.o32.specs.O32.{O32};

use answers::Refusal;
use device::Device;

// The call image of a list for a device, by the plan of its own signature. Refusals 1 to 5 by record, then 7.
pub fn write_by_plan(device: Device, list: &[u8], out: &mut [u8]) -> Result<usize, Refusal>
    ensures answer { in_numbers result ≡ answer_of (write_into (O32 device) list.now (length out.old)) }
    ensures buffer { out.new ≡ buffer_of (write_into (O32 device) list.now (length out.old)) out.old }
{
    let mut signature = [0u8; 33];
    let n = plans_signature::signature_of(list, &mut signature)?;
    let plan = plans_code::make_plan(device, &signature[..n])?;
    plans_code::fill(device, plan, list, out)
}

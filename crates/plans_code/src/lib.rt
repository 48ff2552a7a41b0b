// Making a plan from a signature, and filling an image from a plan and a list.
#![tactic(auto)]

ghost use Rattle.std.specs.Prelude.{false, ◌≡◌, length};
ghost use Rattle.answers.specs.Outcomes.{answer_of, buffer_of, in_numbers};
ghost use Rattle.plans.specs.Plans.{fill_into, make_plan, numbers, plan_answer};

use answers::Refusal;
use device::Device;
use plans::Plan;

// The plan of a signature for a device. Refusals 1, 2, 3 and 5 by record.
pub fn make_plan(device: Device, signature: &[u8]) -> Result<Plan, Refusal>
    ensures { plan_answer result ≡ make_plan device false signature.now }
{
    plans_own::plan_for(device, signature, false)
}

// The call image of a list by a plan, for a device. Refusals 1 to 5 by record of the list, then 20 where the plan is not in every
// number the one that the list's kinds and the device give, then 7. The plan is used in comparing it, and nowhere else.
pub fn fill(device: Device, plan: Plan, list: &[u8], out: &mut [u8]) -> Result<usize, Refusal>
    ensures answer { in_numbers result ≡ answer_of (fill_into device (numbers plan) list.now (length out.old)) }
    ensures buffer { out.new ≡ buffer_of (fill_into device (numbers plan) list.now (length out.old)) out.old }
{
    let own = plans_own::plan_for(device, list, true)?;
    let agrees = plan == own;
    plans_own::fill_own(device, Ok(own), agrees, list, out)
}

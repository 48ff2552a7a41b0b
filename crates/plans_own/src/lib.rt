// The plan of a list or a signature, and an image of a list whose own plan is known. Between our own crates: `make_plan` and `fill` are
// made of these.
#![tactic(auto)]

ghost use Rattle.std.specs.Prelude.{true, ◌≡◌, ◌≤◌, length, Ok, Err, IfErr, MatchResult};
ghost use Rattle.answers.specs.Outcomes.{answer_of, buffer_of, in_numbers};
ghost use Rattle.carried.specs.Convention.{scan};
ghost use Rattle.carried.specs.Carried.{kinds};
ghost use Rattle.passes.specs.Passes.{Admitted, placed_in};
ghost use Rattle.o32.specs.O32.{O32, end_most};
ghost use Rattle.plans.specs.Plans.{make_plan, no_plan, plan_answer, plan_of};
ghost use Rattle.plans_own.specs.Filling.{filled};

use answers::{Cause, Refusal};
use device::Device;
use kinds::{Class, Kind};
use o32::Placement;
use plans::{Entry, Plan};

// A plan that is all zero, in which another is made: it has 136 bytes, which a plan that is answered would move each time.
pub fn no_plan() -> Plan
    ensures { result ≡ no_plan }
{
    let none = Entry {
        kind: 0,
        register: 0,
        offset: 0,
    };
    Plan {
        entries: [none; 32],
        count: 0,
        area: 0,
    }
}

// A placement as an entry of a plan. (A function of its own, since what it answers is stored as one word, and not field by field.)
fn entry_of(kind: u8, place: Placement) -> Entry
    requires { (place.register ≤ 14) × (place.offset ≤ end_most) }
    ensures { result ≡ record { kind = kind; register = place.register; offset = place.offset } }
{
    Entry {
        kind,
        register: place.register as u8,
        offset: place.offset as u16,
    }
}

// The plan of a list (bodies) or of a signature that was accepted (a fact of a device, bytes and a length, which the functions that ask
// for it need one by one), and whose image has so many bytes, in a plan that is all zero.
fn put_plan(device: Device, bytes: &[u8], bodies: bool, image: usize, plan: &mut Plan)
    requires admitted { Admitted (O32 device) bodies bytes.now image }
    requires zero { plan.old ≡ no_plan }
    ensures { plan.new ≡ plan_of device (kinds (placed_in (scan (O32 device) bodies bytes.now))) }
{
    let mut st = o32_step::start();
    let mut at = 0;
    // no `for`, since each step is as long as its record
    while at < bytes.len() {
        let byte = bytes[at];
        let kind = Kind::from(byte);
        let place = o32_step::placement_of(device, st, kind);
        if !kind.is_class(Class::Marker) {
            plan.entries[st.prefix.count] = entry_of(byte, place);
        }
        at = at + 1 + passes::body_length(bodies, kind.size);
        st = o32_step::advance(st, kind, place.offset);
    }
    plan.count = st.prefix.count as u32;
    plan.area = (image - 32) as u32;
}

// The plan of a signature, or of the kinds of a list (bodies), for a device, in a plan that is all zero, which a refusal leaves as it is.
// Refusals 1 to 5 by record.
pub fn plan_into(device: Device, bytes: &[u8], bodies: bool, plan: &mut Plan) -> Result<(), Refusal>
    requires { plan.old ≡ no_plan }
    ensures answer { MatchResult result (λ _. plan_answer (Ok plan.new) ≡ make_plan device bodies bytes.now) (λ e. plan_answer (Err e) ≡ make_plan device bodies bytes.now) }
    ensures kept { IfErr result (λ _. plan.new ≡ plan.old) }
{
    let found = o32_measure::measure(bytes, bodies)?;
    put_plan(device, bytes, bodies, found.image, plan);
    Ok(())
}

// The same plan by itself.
pub fn plan_for(device: Device, bytes: &[u8], bodies: bool) -> Result<Plan, Refusal>
    ensures { plan_answer result ≡ make_plan device bodies bytes.now }
{
    let mut plan = no_plan();
    plan_into(device, bytes, bodies, &mut plan)?;
    Ok(plan)
}

// The image of a list whose own plan is given, where the caller's plan agrees with it: 20 where it does not, then 7; no byte is stored
// before both are decided. (Whether they agree is asked apart, since a caller's plan may be words too.)
pub fn fill_planned(
    device: Device,
    own: &Plan,
    agrees: bool,
    list: &[u8],
    out: &mut [u8],
) -> Result<usize, Refusal>
    requires { plan_answer (Ok own.now) ≡ make_plan device true list.now }
    ensures answer { in_numbers result ≡ answer_of (filled device agrees list.now (length out.old)) }
    ensures buffer { out.new ≡ buffer_of (filled device agrees list.now (length out.old)) out.old }
{
    if !agrees {
        return Err(Cause::OtherPlan.into());
    }
    let image = 32 + own.area as usize;
    if out.len() < image {
        return Err(Cause::BufferTooShort.into());
    }
    o32_writer::lay(device, list, out, image);
    Ok(image)
}

// The same of a list whose own plan, or refusal, is given: the list's refusals 1 to 5 first.
pub fn fill_own(
    device: Device,
    own: Result<Plan, Refusal>,
    agrees: bool,
    list: &[u8],
    out: &mut [u8],
) -> Result<usize, Refusal>
    requires { plan_answer own ≡ make_plan device true list.now }
    ensures answer { in_numbers result ≡ answer_of (filled device agrees list.now (length out.old)) }
    ensures buffer { out.new ≡ buffer_of (filled device agrees list.now (length out.old)) out.old }
{
    let plan = own?;
    fill_planned(device, &plan, agrees, list, out)
}

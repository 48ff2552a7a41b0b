// Plans as 98 words: of each entry the kind, the offset and the register, then the count, then the area size. For callers that share
// no struct with this code.
#![tactic(auto)]

ghost use Rattle.std.specs.Prelude.{List, [], ◌∷◌, false, ◌≡◌, ◌==◌, ◌*◌, ◌≤◌, length, sum, take};
ghost use Rattle.words.specs.Words.{same};
ghost use Rattle.answers.specs.Outcomes.{answer_of, buffer_of, in_numbers, over};
ghost use Rattle.plans.specs.declared.Entry.{Entry};
ghost use Rattle.plans.specs.Plans.{entry_numbers, fill_into, make_into, numbers, padded};

use answers::{Cause, Refusal};
use device::Device;
use plans::{Entry, Plan};

// The words of entries into a buffer that has room. (By a range: the compiler then knows the 32 turns, and needs no loop.)
fn put_entries(entries: &[Entry], out: &mut [u32])
    requires { 3 * length entries.now ≤ length out.old }
    ensures { out.new ≡ over (entry_numbers entries.now) out.old }
{
    for i in 0..entries.len() {
        let entry = entries[i];
        let at = 3 * i;
        out[at] = entry.kind as u32;
        out[at + 1] = entry.offset as u32;
        out[at + 2] = entry.register as u32;
    }
}

// The words of a plan into a buffer that has room.
fn put_plan(plan: &Plan, out: &mut [u32])
    requires { 98 ≤ length out.old }
    ensures { out.new ≡ over (numbers plan.now) out.old }
{
    put_entries(&plan.entries, out);
    out[96] = plan.count;
    out[97] = plan.area;
}

// The plan of a signature for a device, as words. Refusals 1, 2, 3 and 5 by record, then 7; no word is stored before all are decided.
pub fn make_plan(device: Device, signature: &[u8], out: &mut [u32]) -> Result<usize, Refusal>
    ensures answer { in_numbers result ≡ answer_of (make_into device signature.now (length out.old)) }
    ensures buffer { out.new ≡ buffer_of (make_into device signature.now (length out.old)) out.old }
{
    let mut plan = plans_own::no_plan();
    plans_own::plan_into(device, signature, false, &mut plan)?;
    if out.len() < 98 {
        return Err(Cause::BufferTooShort.into());
    }
    put_plan(&plan, out);
    Ok(98)
}

// Whether these three words are an entry's, whose fields are of other types, so that no derived `==` compares them.
fn is_entry(kind: u32, offset: u32, register: u32, entry: Entry) -> bool
    ensures { result ≡ same (kind ∷ offset ∷ register ∷ []) (entry_numbers (entry ∷ [])) }
{
    kind == entry.kind as u32 && offset == entry.offset as u32 && register == entry.register as u32
}

// Whether the first words are those of these entries.
fn have_entries(words: &[u32], entries: &[Entry]) -> bool
    requires { 3 * length entries.now ≤ length words.now }
    ensures { result ≡ same (take (3 * length entries.now) words.now) (entry_numbers entries.now) }
{
    for (i, entry) in entries.iter().enumerate() {
        let at = 3 * i;
        if !is_entry(words[at], words[at + 1], words[at + 2], *entry) {
            return false;
        }
    }
    true
}

// Whether words are zero. They are added up and not tested one by one: the compiler then takes several at a time.
fn are_zero(words: &[u32]) -> bool
    requires { length words.now ≤ 96 }
    ensures { result ≡ (sum words.now == 0) }
{
    let sum: u64 = words.iter().map(|word| *word as u64).sum();
    sum == 0
}

// Whether words are those of a plan whose entries past the count are zero: 98, and each as it is there.
fn is_plan(words: &[u32], plan: &Plan) -> bool
    requires { (es : List Entry) × (length es ≤ 32) × (plan.now.entries ≡ padded es) × (plan.now.count ≡ length es) }
    ensures { result ≡ same words.now (numbers plan.now) }
{
    if words.len() != 98 {
        return false;
    }
    let count = plan.count as usize;
    have_entries(words, &plan.entries[..count])
        && are_zero(&words[3 * count..96])
        && words[96] == plan.count
        && words[97] == plan.area
}

// The call image of a list by the words of a plan, for a device. Refusals 1 to 5 by record of the list, then 20 where the words are
// not those of the plan that the list's kinds and the device give, then 7. The words are used in comparing them, and nowhere else; the
// comparing is what differs from `fill` of plans_code.
pub fn fill(device: Device, words: &[u32], list: &[u8], out: &mut [u8]) -> Result<usize, Refusal>
    ensures answer { in_numbers result ≡ answer_of (fill_into device words.now list.now (length out.old)) }
    ensures buffer { out.new ≡ buffer_of (fill_into device words.now list.now (length out.old)) out.old }
{
    let mut own = plans_own::no_plan();
    plans_own::plan_into(device, list, true, &mut own)?;
    let agrees = is_plan(words, &own);
    plans_own::fill_planned(device, &own, agrees, list, out)
}

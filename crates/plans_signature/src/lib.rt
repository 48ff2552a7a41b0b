// The signature of a list: "the kind bytes alone, in order". It is the same on every device.
#![tactic(auto)]

ghost use Rattle.std.specs.Prelude.{true, List, ◌≡◌, ◌+◌, ◌≤◌, ℕ, get_or, length};
ghost use Rattle.device.specs.declared.Device.{Device};
ghost use Rattle.answers.specs.Outcomes.{answer_of, buffer_of, in_numbers, over};
ghost use Rattle.kinds.specs.Kinds.{kind_of};
ghost use Rattle.o32_laws.specs.Refusing.{Records};
ghost use Rattle.plans.specs.Plans.{signature_into};

use answers::{Cause, Refusal};
use kinds::Kind;

// The place after the record at this place, both in the whole list. Walks by it are no `for`, since each step is as long as its record.
fn after_record(list: &[u8], at: usize) -> usize
    requires { at + 1 + (kind_of (get_or list.now at 0)).size ≤ length list.now }
    ensures { result ≡ at + 1 + (kind_of (get_or list.now at 0)).size }
{
    let kind = Kind::from(list[at]);
    at + 1 + kind.size
}

// How many records a list of whole records has.
fn count_records(list: &[u8]) -> usize
    requires { (sig : List ℕ) × Records true sig list.now }
    ensures { (sig : List ℕ) → Records true sig list.now → result ≡ length sig }
{
    let mut n = 0;
    let mut at = 0;
    while at < list.len() {
        n += 1;
        at = after_record(list, at);
    }
    n
}

// The kind bytes of a list of whole records, into a buffer that has room.
fn copy_kinds(list: &[u8], out: &mut [u8])
    requires { (sig : List ℕ) × Records true sig list.now × (length sig ≤ length out.old) }
    ensures { (sig : List ℕ) → Records true sig list.now → out.new ≡ over sig out.old }
{
    let mut n = 0;
    let mut at = 0;
    while at < list.len() {
        out[n] = list[at];
        n += 1;
        at = after_record(list, at);
    }
}

// The signature of a list: its kind bytes, in order. Refusals 1 to 5 by record, then 7; no byte is stored before all are decided.
pub fn signature_of(list: &[u8], out: &mut [u8]) -> Result<usize, Refusal>
    ensures answer { (d : Device) → in_numbers result ≡ answer_of (signature_into d list.now (length out.old)) }
    ensures buffer { (d : Device) → out.new ≡ buffer_of (signature_into d list.now (length out.old)) out.old }
{
    o32_measure::measure_list(list)?;
    let n = count_records(list);
    if out.len() < n {
        return Err(Cause::BufferTooShort.into());
    }
    copy_kinds(list, out);
    Ok(n)
}

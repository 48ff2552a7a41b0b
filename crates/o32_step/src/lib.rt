// One record of a list or a signature: its refusals, where its argument goes, and the state after it.
#![tactic(auto)]

ghost use Rattle.std.specs.Prelude.{cond, ◌≡◌, ◌≤◌, eqb};
ghost use Rattle.device.specs.declared.Device.{Device};
ghost use Rattle.kinds.specs.declared.Class.TheVariants.{Float};
ghost use Rattle.kinds.specs.Kinds.{is};
ghost use Rattle.rules.specs.Rules.{arguments_most};
ghost use Rattle.carried.specs.Convention.{taken};
ghost use Rattle.o32_offsets.specs.Offsets.{offset};
ghost use Rattle.o32.specs.O32.{O32, advance, end_most, float_register, placement, register, start};
ghost use Rattle.o32_step.specs.Recorded.{recorded};
ghost use Rattle.o32_step.specs.Records.{Placeable, record_of};

use answers::Cause;
use device::Device;
use kinds::{Class, Kind};
use o32::{Placement, State};
use rules::Prefix;

// What one record answers: a refusal's cause, and the number of the argument that the record is or would be, from 1, or 0 where it is
// none; or this argument's number, the record's kind and the state after it. (An enum of its own, which document 01 names.)
#[derive(Clone, Copy)]
pub enum Record {
    Refused(Cause, usize),
    Taken {
        argument: usize,
        kind: Kind,
        next: State,
    },
}

// `State` is another crate's type, which has the definitions, so what follows are functions of a state and no methods.

// Rule 3: the floating register of a single or double, or 0, as the paper gives a placement.
fn float_register(device: Device, st: State) -> usize
    ensures { result ≡ float_register device st }
{
    match (device, st.prefix.count) {
        (Device::NoFpu, _) => 0, // there is no floating register
        (Device::Fpu, 0) => 12,
        (Device::Fpu, 1) if st.floating && !st.prefix.marked => 14,
        _ => 0,
    }
}

// The floating register of an argument, or 0, likewise: no other argument has one.
fn register_of(device: Device, st: State, kind: Kind) -> usize
    ensures { result ≡ register device st kind }
{
    if kind.is_class(Class::Float) {
        float_register(device, st)
    } else {
        0
    }
}

// Whether the first argument is a float, once this argument is added.
fn starts_floating(st: State, kind: Kind) -> bool
    ensures { result ≡ cond (eqb st.prefix.count 0) (is Float kind) st.floating }
{
    if st.prefix.count == 0 {
        kind.is_class(Class::Float)
    } else {
        st.floating
    }
}

// The state before the first record.
pub fn start() -> State
    ensures { result ≡ start }
{
    State {
        prefix: Prefix::nothing(),
        end: 0,
        floating: false,
    }
}

// Rule 2: the offset of a record.
fn offset_of(st: State, kind: Kind) -> usize
    requires { Placeable st kind }
    ensures { result ≡ offset kind st.end }
{
    o32_offsets::align_up(kind.alignment, st.end)
}

// The placement of a record on a device.
pub fn placement_of(device: Device, st: State, kind: Kind) -> Placement
    requires { Placeable st kind }
    ensures { result ≡ placement device st kind }
{
    Placement {
        kind,
        offset: offset_of(st, kind),
        register: register_of(device, st, kind),
    }
}

// The state after a record at this offset.
pub fn advance(st: State, kind: Kind, o: usize) -> State
    requires placeable { Placeable st kind }
    requires o_value { o ≡ offset kind st.end }
    ensures { result ≡ advance st kind }
{
    let prefix = st.prefix.extend(kind);
    if kind.is_class(Class::Marker) {
        return State { prefix, ..st };
    }
    State {
        prefix,
        end: o + o32_offsets::align_up(4, o32_offsets::width_of(kind)),
        floating: starts_floating(st, kind),
    }
}

// One record of a list (bodies, a flag as in the definition `taken`) or of a signature, with so many bytes left after its kind byte: refusals 1 to 5 in their
// order, or its kind and the state after it, with its argument's number, on every device.
pub fn take(st: State, byte: u8, bodies: bool, left: usize) -> Record
    requires { (st.end ≤ end_most) × (st.prefix.count ≤ arguments_most) }
    ensures { (d : Device) → recorded result ≡ record_of (taken (O32 d) bodies left st byte) }
{
    let kind = Kind::from(byte);
    let prefix = st.prefix;
    let argument = prefix.argument_of(kind);
    if kind.is_class(Class::Unknown) {
        return Record::Refused(Cause::UnknownKind, argument);
    }
    if prefix.is_misplaced(kind) {
        return Record::Refused(Cause::Misplaced, argument);
    }
    if prefix.is_full(kind) {
        return Record::Refused(Cause::TooManyArguments, argument);
    }
    if left < passes::body_length(bodies, kind.size) {
        return Record::Refused(Cause::BodyCutOff, argument);
    }
    let next = advance(st, kind, offset_of(st, kind));
    if 1024 < next.end {
        return Record::Refused(Cause::BeyondArea, argument);
    }
    Record::Taken {
        argument,
        kind,
        next,
    }
}

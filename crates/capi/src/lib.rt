// The proved functions for C. A slice is a pointer and a length there; each answer is a struct of 32-bit numbers, by value; a request is
// five numbers. C calls each function by its name, so functions that differ in a name alone stay apart.
#![tactic(auto)]

ghost use Rattle.std.specs.Prelude.{◌≡◌, ◌≤◌, length};
ghost use Rattle.o32.specs.O32.{O32};
ghost use Rattle.answers.specs.Outcomes.{answer_of, buffer_of, in_numbers};
ghost use Rattle.carried.specs.Convention.{read_into, write_into};
ghost use Rattle.device.specs.declared.Device.{Device};
ghost use Rattle.varargs.specs.Walking.{walk_into};
ghost use Rattle.plans.specs.Plans.{fill_into, make_into, signature_into};
ghost use Rattle.descriptions.specs.Describing.{described};
ghost use Rattle.descriptions.specs.Descriptions.{place_most};
ghost use Rattle.descriptions.specs.Structures.{structure_in_numbers};
ghost use Rattle.frame.specs.Frame.{layout_of};
ghost use Rattle.frame.specs.Layout.{layout_in_numbers};
ghost use Rattle.frame_code.specs.Code.{epilogue_into, prologue_into};
ghost use Rattle.prologues.specs.Checking.{checked};
ghost use Rattle.prologues.specs.Verdict.{verdict_in_numbers};
ghost use Rattle.capi.specs.Numbers.{device_of, layout_numbers, narrow, request_of, structure_numbers, verdict_numbers};

use answers::{Cause, Refusal};
use descriptions::Structure;
use device::Device;
use frame::{Frame, Request};
use prologues::Finding;

// A refusal, its place and its argument's number, or 0, 0, 0 and the length of what was written.
#[repr(C)]
#[derive(Clone, Copy, Default)]
pub struct O32Answer {
    pub refusal: u32,
    pub place: u32,
    pub argument: u32,
    pub length: u32,
}

// A frame: a refusal and all other numbers 0, or 0, 0 and the frame's numbers. `gp_saved` is 1 for yes and 0 for no.
#[repr(C)]
#[derive(Clone, Copy, Default)]
pub struct O32Layout {
    pub refusal: u32,
    pub place: u32,
    pub frame: u32,
    pub build: u32,
    pub floating: u32,
    pub general: u32,
    pub locals: u32,
    pub gp_saved: u32,
    pub gp: u32,
}

// A structure that was described: a refusal, its place and all other numbers 0, or 0, 0 and the structure's numbers.
#[repr(C)]
#[derive(Clone, Copy, Default)]
pub struct O32Structure {
    pub refusal: u32,
    pub place: u32,
    pub size: u32,
    pub alignment: u32,
    pub kind: u32,
}

// What is answered for code that is sent as a prologue: a refusal, its place and 0, or 0, 0 and the verdict.
#[repr(C)]
#[derive(Clone, Copy, Default)]
pub struct O32Verdict {
    pub refusal: u32,
    pub place: u32,
    pub verdict: u32,
}

// An answer in 32-bit numbers. (A function and no `From`, since it asks for small numbers.) No answer has a larger place or length than 1,057, or a larger argument than 33.
fn narrowed(answer: Result<usize, Refusal>) -> O32Answer
    requires { ((in_numbers answer).place ≤ 1057) × ((in_numbers answer).argument ≤ 33) × ((in_numbers answer).length ≤ 1057) }
    ensures { result ≡ narrow (in_numbers answer) }
{
    match answer {
        Ok(length) => O32Answer {
            length: length as u32,
            ..O32Answer::default()
        },
        Err(
            Refusal {
                cause,
                place,
                argument,
            },
        ) => O32Answer {
            refusal: cause.number(),
            place: place as u32,
            argument: argument as u32,
            length: 0,
        },
    }
}

// A layout in C's numbers.
impl From<Result<Frame, Cause>> for O32Layout {
    ghost from_gives = { λ answer layout. layout ≡ layout_numbers (layout_in_numbers answer) };

    fn from(answer: Result<Frame, Cause>) -> O32Layout {
        match answer {
            Ok(frame) => O32Layout {
                refusal: 0,
                place: 0,
                frame: frame.frame,
                build: frame.build,
                floating: frame.floating,
                general: frame.general,
                locals: frame.locals,
                gp_saved: frame.gp.is_some() as u32,
                gp: frame.gp.unwrap_or(0),
            },
            Err(cause) => O32Layout {
                refusal: cause.number(),
                ..O32Layout::default()
            },
        }
    }
}

// What a check found, in C's numbers.
impl From<Result<Finding, Cause>> for O32Verdict {
    ghost from_gives = { λ answer verdict. verdict ≡ verdict_numbers (verdict_in_numbers answer) };

    fn from(answer: Result<Finding, Cause>) -> O32Verdict {
        match answer {
            Ok(finding) => O32Verdict {
                verdict: finding.number(),
                ..O32Verdict::default()
            },
            Err(cause) => O32Verdict {
                refusal: cause.number(),
                ..O32Verdict::default()
            },
        }
    }
}

// A structure in 32-bit numbers, by a function for the same reason. No place is larger than 39,954, however long a description is.
fn structure_numbers(answer: Result<Structure, Refusal>) -> O32Structure
    requires { ((structure_in_numbers answer).place ≤ place_most) × ((structure_in_numbers answer).size ≤ 512) × ((structure_in_numbers answer).alignment ≤ 8) }
    ensures { result ≡ structure_numbers (structure_in_numbers answer) }
{
    match answer {
        Ok(structure) => O32Structure {
            size: structure.size as u32,
            alignment: structure.alignment as u32,
            kind: structure.kind as u32,
            ..O32Structure::default()
        },
        Err(refusal) => O32Structure {
            refusal: refusal.cause.number(),
            place: refusal.place as u32,
            ..O32Structure::default()
        },
    }
}

// A device as C hands it over. (A `From` would stand where neither type is this crate's.)
fn as_device(number: u32) -> Device
    ensures { result ≡ device_of number }
{
    if number == 0 {
        Device::Fpu
    } else {
        Device::NoFpu
    }
}

// A request as C hands it over.
fn as_request(leaf: u32, locals: u32, outgoing: u32, general: u32, pairs: u32) -> Request
    ensures { result ≡ request_of leaf locals outgoing general pairs }
{
    Request {
        leaf: leaf != 0,
        locals,
        outgoing,
        general,
        pairs,
    }
}

// The version of this interface, O32_VERSION of include/o32.h. The number rises with every release that changes or adds a struct
// or a function here.
#[unsafe(no_mangle)]
pub extern "C" fn o32_version() -> u32
    ensures { result ≡ 6 }
{
    6
}

// The call image of a list for a device.
#[unsafe(no_mangle)]
pub extern "C" fn o32_write(device: u32, list: &[u8], image: &mut [u8]) -> O32Answer
    ensures answer { result ≡ narrow (answer_of (write_into (O32 (device_of device)) list.now (length image.old))) }
    ensures buffer { image.new ≡ buffer_of (write_into (O32 (device_of device)) list.now (length image.old)) image.old }
{
    let answer = o32_image::write(as_device(device), list, image);
    narrowed(answer)
}

// The list of an image under a signature, for a device.
#[unsafe(no_mangle)]
pub extern "C" fn o32_read(
    device: u32,
    signature: &[u8],
    image: &[u8],
    list: &mut [u8],
) -> O32Answer
    ensures answer { result ≡ narrow (answer_of (read_into (O32 (device_of device)) signature.now image.now (length list.old))) }
    ensures buffer { list.new ≡ buffer_of (read_into (O32 (device_of device)) signature.now image.now (length list.old)) list.old }
{
    let answer = o32_image::read(as_device(device), signature, image, list);
    narrowed(answer)
}

// The bodies of the arguments after the marker, as a routine with an ellipsis takes them from an image, for a device.
#[unsafe(no_mangle)]
pub extern "C" fn o32_walk(
    device: u32,
    signature: &[u8],
    image: &[u8],
    bodies: &mut [u8],
) -> O32Answer
    ensures answer { result ≡ narrow (answer_of (walk_into (device_of device) signature.now image.now (length bodies.old))) }
    ensures buffer { bodies.new ≡ buffer_of (walk_into (device_of device) signature.now image.now (length bodies.old)) bodies.old }
{
    let answer = varargs_code::walk(as_device(device), signature, image, bodies);
    narrowed(answer)
}

// The signature of a list.
#[unsafe(no_mangle)]
pub extern "C" fn o32_signature(list: &[u8], signature: &mut [u8]) -> O32Answer
    ensures answer { (d : Device) → result ≡ narrow (answer_of (signature_into d list.now (length signature.old))) }
    ensures buffer { (d : Device) → signature.new ≡ buffer_of (signature_into d list.now (length signature.old)) signature.old }
{
    let answer = plans_signature::signature_of(list, signature);
    narrowed(answer)
}

// The plan of a signature for a device, as 98 words.
#[unsafe(no_mangle)]
pub extern "C" fn o32_make_plan(device: u32, signature: &[u8], plan: &mut [u32]) -> O32Answer
    ensures answer { result ≡ narrow (answer_of (make_into (device_of device) signature.now (length plan.old))) }
    ensures buffer { plan.new ≡ buffer_of (make_into (device_of device) signature.now (length plan.old)) plan.old }
{
    let answer = plans_words::make_plan(as_device(device), signature, plan);
    narrowed(answer)
}

// The call image of a list by a plan of 98 words, for a device. Any words may be given: they are compared, and used for nothing else.
#[unsafe(no_mangle)]
pub extern "C" fn o32_fill(device: u32, plan: &[u32], list: &[u8], image: &mut [u8]) -> O32Answer
    ensures answer { result ≡ narrow (answer_of (fill_into (device_of device) plan.now list.now (length image.old))) }
    ensures buffer { image.new ≡ buffer_of (fill_into (device_of device) plan.now list.now (length image.old)) image.old }
{
    let answer = plans_words::fill(as_device(device), plan, list, image);
    narrowed(answer)
}

// The structure of a description.
#[unsafe(no_mangle)]
pub extern "C" fn o32_describe(description: &[u8]) -> O32Structure
    ensures { result ≡ structure_numbers (described description.now) }
{
    structure_numbers(descriptions_code::describe(description))
}

// The frame of a request on a device.
#[unsafe(no_mangle)]
pub extern "C" fn o32_frame(
    device: u32,
    leaf: u32,
    locals: u32,
    outgoing: u32,
    general: u32,
    pairs: u32,
) -> O32Layout
    ensures { result ≡ layout_numbers (layout_of (device_of device) (request_of leaf locals outgoing general pairs)) }
{
    let request = as_request(leaf, locals, outgoing, general, pairs);
    frame_code::layout_of(as_device(device), request).into()
}

// The prologue of a request on a device.
#[unsafe(no_mangle)]
pub extern "C" fn o32_prologue(
    device: u32,
    leaf: u32,
    locals: u32,
    outgoing: u32,
    general: u32,
    pairs: u32,
    code: &mut [u8],
) -> O32Answer
    ensures answer { result ≡ narrow (answer_of (prologue_into (device_of device) (request_of leaf locals outgoing general pairs) (length code.old))) }
    ensures buffer { code.new ≡ buffer_of (prologue_into (device_of device) (request_of leaf locals outgoing general pairs) (length code.old)) code.old }
{
    let request = as_request(leaf, locals, outgoing, general, pairs);
    let answer = frame_code::prologue(as_device(device), request, code);
    narrowed(answer)
}

// The epilogue of a request on a device.
#[unsafe(no_mangle)]
pub extern "C" fn o32_epilogue(
    device: u32,
    leaf: u32,
    locals: u32,
    outgoing: u32,
    general: u32,
    pairs: u32,
    code: &mut [u8],
) -> O32Answer
    ensures answer { result ≡ narrow (answer_of (epilogue_into (device_of device) (request_of leaf locals outgoing general pairs) (length code.old))) }
    ensures buffer { code.new ≡ buffer_of (epilogue_into (device_of device) (request_of leaf locals outgoing general pairs) (length code.old)) code.old }
{
    let request = as_request(leaf, locals, outgoing, general, pairs);
    let answer = frame_code::epilogue(as_device(device), request, code);
    narrowed(answer)
}

// Whether code is a prologue for a request on a device, and what is wrong where it is not.
#[unsafe(no_mangle)]
pub extern "C" fn o32_check_prologue(
    device: u32,
    leaf: u32,
    locals: u32,
    outgoing: u32,
    general: u32,
    pairs: u32,
    code: &[u8],
) -> O32Verdict
    ensures { result ≡ verdict_numbers (checked (device_of device) (request_of leaf locals outgoing general pairs) code.now) }
{
    let request = as_request(leaf, locals, outgoing, general, pairs);
    prologues_code::check_prologue(as_device(device), request, code).into()
}

// Frames: the layout of a request, its prologue and its epilogue.
#![tactic(auto)]

ghost use Rattle.std.specs.Prelude.{cond, false, map, ◌≡◌, ◌*◌, ◌+◌, ◌≤◌, length, MatchResult, Some, None};
ghost use Rattle.std.proofs.lemmas.List.Edits.{sets};
ghost use Rattle.words.specs.Words.{up, bytes_of_words};
ghost use Rattle.answers.specs.Numbers.{number};
ghost use Rattle.answers.specs.Outcomes.{answer_of, buffer_of, in_numbers};
ghost use Rattle.frame.specs.Frame.{build_for, exceeds_outgoing, frame_most, general_at, gp_at, has_pairs_without_unit, layout_of, loses_return, names_unsavable, outgoing_most, refusal_of, saves_gp};
ghost use Rattle.frame.specs.Layout.{layout_in_numbers};
ghost use Rattle.frame.specs.Words.{saves_of, slot_for, word_of};
ghost use Rattle.frame_words.specs.Limits.{op_most, start_most};
ghost use Rattle.frame_code.specs.Areas.{Areas};
ghost use Rattle.frame_code.specs.Code.{epilogue_into, prologue_into};
ghost use Rattle.frame_code.specs.Longest.{saves_most};

use answers::{Cause, Refusal};
use device::Device;
use frame::{Frame, Request};

// Refusal 9: a general register that may not be saved, or a pair mask above 63.
fn names_unsavable(request: Request) -> bool
    ensures { result ≡ names_unsavable request }
{
    request.general & 0xD0FF_0000 != request.general || request.pairs > 63
}

// A device and a request stay apart: a request is the same on every device.

// Refusal 14: pairs to save on a device without a floating-point unit.
fn has_pairs_without_unit(device: Device, request: Request) -> bool
    ensures { result ≡ has_pairs_without_unit device request }
{
    match device {
        Device::Fpu => false,
        Device::NoFpu => request.pairs != 0,
    }
}

// Refusal 10: not a leaf, and `$31` not named.
fn loses_return(request: Request) -> bool
    ensures { result ≡ loses_return request }
{
    !request.leaf && !frame_words::is_named(request.general, 31)
}

// Refusal 12: too many bytes of outgoing arguments, or any in a leaf.
fn exceeds_outgoing(request: Request) -> bool
    ensures { result ≡ exceeds_outgoing request }
{
    request.outgoing > 1024 || request.leaf && request.outgoing != 0
}

// Whether a device accepts a request, or why not. Nothing is added up before all is in its limits.
#[tactic(auto, unfolding(frame::specs::Frame::refusal_of))]
fn check(device: Device, request: Request) -> Result<(), Cause>
    ensures { MatchResult result (λ _. refusal_of device request ≡ 0) (λ c. number c ≡ refusal_of device request) }
{
    if names_unsavable(request) {
        return Err(Cause::Unsavable);
    }
    if has_pairs_without_unit(device, request) {
        return Err(Cause::NoPairs);
    }
    if loses_return(request) {
        return Err(Cause::ReturnLost);
    }
    if request.locals > 16384 {
        return Err(Cause::TooManyLocals);
    }
    if exceeds_outgoing(request) {
        return Err(Cause::TooMuchOutgoing);
    }
    Ok(())
}

// The frame and its areas are in units of 8 bytes.
fn round_up(n: u32) -> u32
    requires { n ≤ frame_most }
    ensures { result ≡ up 8 n }
{
    n.next_multiple_of(8)
}

// The bytes of the argument build area, by two fields of a request: whether it is a leaf, and its outgoing bytes.
fn build_area(leaf: bool, outgoing: u32) -> u32
    requires { outgoing ≤ outgoing_most }
    ensures { result ≡ build_for leaf outgoing }
{
    if leaf { 0 } else { round_up(outgoing).max(16) }
}

// The offset of `$28`'s save word where it is saved, in a general save area that starts at `start`.
#[tactic(auto, unfolding(frame::specs::Frame::gp_at))]
fn gp_offset(request: Request, start: u32) -> Option<u32>
    requires { (start ≡ general_at request) × (start ≤ start_most) }
    ensures { result ≡ cond (saves_gp request) (Some (gp_at request)) None }
{
    if frame_words::is_named(request.general, 28) {
        Some(start + 4 * frame_words::count_below(request.general, 28))
    } else {
        None
    }
}

// The frame of a request on a device.
#[tactic(auto, using(frame::proofs::Accepted::accepted))]
pub fn layout_of(device: Device, request: Request) -> Result<Frame, Cause>
    ensures { layout_in_numbers result ≡ layout_of device request }
{
    check(device, request)?;
    let build = build_area(request.leaf, request.outgoing);
    let general = build + 8 * u32::count_ones(request.pairs);
    let locals = general + round_up(4 * u32::count_ones(request.general));
    Ok(Frame {
        frame: round_up(locals + request.locals),
        build,
        floating: build,
        general,
        locals,
        gp: gp_offset(request, general),
    })
}

// What code saves: a request whose masks may be saved, and its frame.
#[derive(Clone, Copy)]
pub struct Saves {
    pub request: Request,
    pub frame: Frame,
    pub ghost areas: { Areas request frame },
}

impl Saves {
    // The bytes of one instruction for each register, two for a pair.
    fn length(self) -> usize
        ensures { (result ≡ 4 * length (saves_of self.request)) × (result ≤ saves_most) }
    {
        let request = self.request;
        (8 * u32::count_ones(request.pairs) + 4 * u32::count_ones(request.general)) as usize
    }

    // One instruction for each save word, from a place on in a caller's buffer, which is no field; the place after them. fop and gop are the instruction's word for floating
    // and for general registers, with register 0 and offset 0.
    #[tactic(auto, using(frame::proofs::Collect::length_saves))]
    fn put(self, out: &mut [u8], at: usize, fop: u32, gop: u32) -> usize
        requires fop_le_op_most { (fop ≤ op_most) × (gop ≤ op_most) }
        requires request_in_bounds { at + 4 * length (saves_of self.request) ≤ length out.old }
        ensures value { result ≡ at + 4 * length (saves_of self.request) }
        ensures out_after { out.new ≡ sets out.old at (bytes_of_words (map (λ v. word_of (cond v.float fop gop) v) (saves_of self.request))) }
    {
        let Saves { request, frame } = self;
        let next = frame_words::put_pairs(out, at, fop, request.pairs, frame.floating);
        frame_words::put_registers(out, next, gop, request.general, frame.general)
    }
}

// The prologue of a request on a device. Refusals 9, 14, 10, 11 and 12, then 13; no byte is stored before all are decided.
pub fn prologue(device: Device, request: Request, out: &mut [u8]) -> Result<usize, Refusal>
    ensures answer { in_numbers result ≡ answer_of (prologue_into device request (length out.old)) }
    ensures buffer { out.new ≡ buffer_of (prologue_into device request (length out.old)) out.old }
{
    let frame = layout_of(device, request)?;
    if frame.frame == 0 {
        return Ok(0);
    }
    let saves = Saves { request, frame };
    let length = 4 + saves.length();
    if out.len() < length { // all of it, before the first store
        return Err(Refusal::from(Cause::CodeBufferTooShort));
    }
    words::write_word(out, 0, frame_words::lower_sp(frame.frame));
    saves.put(out, 4, 0xE7A0_0000, 0xAFA0_0000);
    Ok(length)
}

// The word in the delay slot: `addiu $sp,$sp,f`, or 00000000 where there is no frame.
fn delay_slot(f: u32) -> u32
    requires { f ≤ frame_most }
    ensures { result ≡ slot_for f }
{
    if f == 0 { 0 } else { 0x27BD_0000 + f }
}

// The epilogue of a request on a device, likewise.
pub fn epilogue(device: Device, request: Request, out: &mut [u8]) -> Result<usize, Refusal>
    ensures answer { in_numbers result ≡ answer_of (epilogue_into device request (length out.old)) }
    ensures buffer { out.new ≡ buffer_of (epilogue_into device request (length out.old)) out.old }
{
    let frame = layout_of(device, request)?;
    let saves = Saves { request, frame };
    let length = saves.length() + 8;
    if out.len() < length {
        return Err(Refusal::from(Cause::CodeBufferTooShort));
    }
    let next = saves.put(out, 0, 0xC7A0_0000, 0x8FA0_0000);
    frame_words::put_two_words(out, next, 0x03E0_0008, delay_slot(frame.frame));
    Ok(length)
}

// What is printed for a list: the words of its call image, or the line of its refusal.
#![tactic(auto)]

ghost use Rattle.std.specs.Prelude.{◌≡◌, length};
ghost use Rattle.io.specs.Counts.{IsPrefixLen};
ghost use Rattle.answers.specs.Outcomes.{over};
ghost use Rattle.report.specs.Report.{report_text};

use device::Device;

// The text of a list, for the device with a floating-point unit, at the start of a buffer in which every such text fits; its
// length.
pub fn report_text(list: &[u8], out: &mut [u8; 2376]) -> usize
    ensures prefix_len { IsPrefixLen result out.new }
    ensures value { result ≡ length (report_text list.now) }
    ensures out_after { out.new ≡ over (report_text list.now) out.old }
{
    let mut image = [0u8; 1056];
    let answer = plans_writer::write_by_plan(Device::Fpu, list, &mut image);
    match answer {
        Ok(length) => text::image_text(&image[..length], out).unwrap(),
        Err(r) => text::refusal_text(r.cause.number(), r.place, r.argument, out).unwrap(),
    }
}

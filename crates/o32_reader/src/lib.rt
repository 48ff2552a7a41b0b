// The passes of the reader: refusal 8, and the list.
#![tactic(auto)]

ghost use Rattle.std.specs.Prelude.{false, ◌≡◌, ◌≤◌, ℕ, length};
ghost use Rattle.answers.specs.Outcomes.{Outcome, buffer_of, done, over};
ghost use Rattle.carried.specs.Image.{checked, reading};
ghost use Rattle.carried.specs.Convention.{scan};
ghost use Rattle.passes.specs.Passes.{Admitted, judged, placed_in, verdict};
ghost use Rattle.o32.specs.O32.{O32};

use device::Device;
use kinds::Kind;
use passes::Improper;

// `Admitted` joins a device and two slices, which each function below needs one by one, so no struct holds them.

// The first kind whose word in the image is no proper promotion: refusal 8, or what a caller makes of it.
pub fn check(device: Device, signature: &[u8], image: &[u8]) -> Result<(), Improper>
    requires { Admitted (O32 device) false signature.now (length image.now) }
    ensures { (n : ℕ) (x : Outcome) → judged n result x ≡ checked n 0 (placed_in (scan (O32 device) false signature.now)) image.now x }
{
    let mut st = o32_step::start();
    for at in 0..signature.len() {
        let kind = Kind::from(signature[at]);
        let here = o32_step::placement_of(device, st, kind);
        if !o32_load::is_proper(image, here) {
            return Err(Improper {
                place: at,
                argument: st.prefix.argument_of(kind),
            });
        }
        st = o32_step::advance(st, kind, here.offset);
    }
    Ok(())
}

// The kinds and the bodies that the image carries for them, into a buffer that has room.
fn copy_list(device: Device, signature: &[u8], image: &[u8], out: &mut [u8])
    requires admitted { Admitted (O32 device) false signature.now (length image.now) }
    requires image_in_bounds { length (reading (placed_in (scan (O32 device) false signature.now)) image.now) ≤ length out.old }
    ensures { out.new ≡ over (reading (placed_in (scan (O32 device) false signature.now)) image.now) out.old }
{
    let mut st = o32_step::start();
    let mut n = 0;
    for &byte in signature {
        let kind = Kind::from(byte);
        let placement = o32_step::placement_of(device, st, kind);
        out[n] = byte;
        let body = n + 1;
        let end = body + kind.size;
        o32_load::get_body(image, placement, &mut out[body..end]);
        n = end;
        st = o32_step::advance(st, kind, placement.offset);
    }
}

// Refusal 8, or the list into a buffer that has room: no byte is stored before 8 is decided.
pub fn deliver(
    device: Device,
    signature: &[u8],
    image: &[u8],
    out: &mut [u8],
) -> Result<(), Improper>
    requires admitted { Admitted (O32 device) false signature.now (length image.now) }
    requires image_in_bounds { length (reading (placed_in (scan (O32 device) false signature.now)) image.now) ≤ length out.old }
    ensures x_value { (x : Outcome) → verdict result x ≡ checked 8 0 (placed_in (scan (O32 device) false signature.now)) image.now x }
    ensures out_after { out.new ≡ buffer_of (checked 8 0 (placed_in (scan (O32 device) false signature.now)) image.now (done (reading (placed_in (scan (O32 device) false signature.now)) image.now))) out.old }
{
    check(device, signature, image)?;
    copy_list(device, signature, image, out);
    Ok(())
}

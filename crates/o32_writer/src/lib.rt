// The passes of the writer over a list that was accepted: zeros in the area, each argument at its place, the registers last.
#![tactic(auto)]

ghost use Rattle.std.specs.Prelude.{◌++◌, true, ◌≡◌, ◌≤◌, drop, length, replicate};
ghost use Rattle.places.specs.Places.{put};
ghost use Rattle.carried.specs.Image.{carried, image, promoted_bytes};
ghost use Rattle.carried.specs.Convention.{scan};
ghost use Rattle.passes.specs.Passes.{Admitted, placed_in};
ghost use Rattle.o32.specs.O32.{O32};
ghost use Rattle.o32_store.specs.Block.{whole};

use device::Device;
use kinds::Kind;

// In what follows a buffer may be longer than the image of n bytes, and keeps what is beyond; `Admitted` joins a device, a list and a
// length, which are needed one by one.

// The arguments of a list that was accepted, each at its place: in the register block that is answered, and in the area.
fn fill(device: Device, list: &[u8], out: &mut [u8], n: usize) -> [u32; 8]
    requires admitted { Admitted (O32 device) true list.now n }
    requires n_in_bounds { n ≤ length out.old }
    ensures { whole result out.new ≡ put (whole (replicate 8 0) out.old) (carried (placed_in (scan (O32 device) true list.now))) (promoted_bytes (placed_in (scan (O32 device) true list.now)) list.now) }
{
    let mut block = [0u32; 8];
    let mut st = o32_step::start();
    let mut at = 0;
    // A turn goes on by the length of a record, which `for` cannot say.
    while at < list.len() {
        let kind = Kind::from(list[at]);
        let placement = o32_step::placement_of(device, st, kind);
        let body = at + 1;
        let end = body + kind.size;
        // The prover has no rule for a call whose result is assigned to the array that it was given.
        let changed = o32_store::put_argument(block, out, placement, &list[body..end]);
        block = changed;
        at = end;
        st = o32_step::advance(st, kind, placement.offset);
    }
    block
}

// The image of a list, n bytes long, into a buffer that has room.
pub fn lay(device: Device, list: &[u8], out: &mut [u8], n: usize)
    requires admitted { Admitted (O32 device) true list.now n }
    requires n_in_bounds { n ≤ length out.old }
    ensures { out.new ≡ image n (placed_in (scan (O32 device) true list.now)) list.now ++ drop n out.old }
{
    out[32..n].fill(0);
    let block = fill(device, list, out, n);
    o32_store::write_block(block, out);
}

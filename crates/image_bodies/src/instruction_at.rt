// The instruction at a thread's point, found by the index of the image.
ghost use Rattle.std.specs.Prelude.{◌≡◌};
ghost use Rattle.image_frames.specs.Records.{bodies};
ghost use Rattle.image_bodies.specs.RecordPlaces.{instruction_of};

use image_header::instruction::{Instruction, NOTHING};
use image_header::sizes::Sizes;
use image_index::indexed::Indexed;

// The instruction of thread `t` at `point`; NOTHING, a branch to point 0, where there is none.
// Image and sizes stay apart: it is called from structs of more than these two (`Counted`) and from functions that have no struct.
#[tactic(auto, unfolding(crate::specs::RecordPlaces::instruction_of, crate::specs::RecordPlaces::thread_body))]
pub fn instruction_of(image: &Indexed, sizes: Sizes, t: usize, point: usize) -> Instruction
    ensures { result ≡ instruction_of sizes (bodies image.now) t point }
{
    if t == 0 || usize::from(sizes.threads) < t {
        return NOTHING;
    }
    image.instruction_in(usize::from(sizes.formulas) + t, point)
}

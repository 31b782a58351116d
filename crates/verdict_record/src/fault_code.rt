// The code by which a verdict names a fault.
ghost use Rattle.std.specs.Prelude.{◌≡◌, ◌<◌};
ghost use Rattle.image_frames.specs.Fault.{code_of};

use image_frames::fault::Fault;

// The code of a fault in the bytes of an image: the page's codes 2 to 9, and 23 of Change 1.
// A function and no `From`: an impl has to stand beside `Fault`, in a crate that knows nothing of verdicts.
#[tactic(auto, unfolding(image_frames::specs::Fault::code_of))]
pub fn code_of(fault: Fault) -> usize
    ensures { (result ≡ code_of fault) × (result < 24) }
{
    match fault {
        Fault::Size => 2,
        Fault::Length => 3,
        Fault::Kind => 4,
        Fault::Body => 5,
        Fault::Number => 6,
        Fault::Formula => 7,
        Fault::Sort => 8,
        Fault::Owner => 9,
        Fault::Operand => 23,
    }
}

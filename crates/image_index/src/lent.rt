// An image with its index, lent to a function for as long as it runs.
#![tactic(auto, using(crate::proofs::IndexBranches::short_zeros, crate::proofs::IndexBranches::long_zeros, limits::proofs::BranchTests::tests))]

ghost use Rattle.std.specs.Fn.{FnOnceReturnsAt};

use crate::indexed::Indexed;
use crate::table::{IndexSize, fill_index};

// Runs `run` on the image with its index. A short image gets a short index, which is cleared sooner.
pub fn with_index<R, F: FnOnce(&Indexed) -> R>(image: &[u8], run: F) -> R
    requires { F.IsAlwaysCallable run }
    ensures { FnOnceReturnsAt F.FnOnce run image.now result }
{
    if image.len() <= IndexSize::SHORT_IMAGE {
        let mut index = [0usize; IndexSize::SHORT];
        fill_index(image, &mut index);
        return run(&Indexed::new(image, &index));
    }
    let mut index = [0usize; IndexSize::LONG];
    fill_index(image, &mut index);
    run(&Indexed::new(image, &index))
}

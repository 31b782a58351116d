// Trimming of any byte string into a buffer.
#![tactic(auto, using(trim_encode::proofs::TrimBranches::trim_by_branches, limits::proofs::BranchTests::tests))]

ghost use Rattle.std.specs.Prelude.{◌≡◌, replicate};
ghost use Rattle.image_index.specs.IndexTable.{table_size};
ghost use Rattle.trim_encode.specs.Answer.{answer_for, buffer_for};

use checker::acceptance::accept_image;
use image_index::indexed::Indexed;
use image_index::table::IndexSize;
use trim_encode::answer::Untrimmed;
use trim_encode::trim_accepted::trim_accepted;

// Trims with `index` as scratch memory: zeros, table_size(image) of them.
fn trim_by(image: &[u8], index: &mut [usize], out: &mut [u8]) -> Result<usize, Untrimmed>
    requires { index.old ≡ replicate (table_size image.now) 0 }
    ensures { (result ≡ answer_for image.now out.old)
        × (out.new ≡ buffer_for image.now out.old) }
{
    match accept_image(image, index) {
        Some(sizes) => trim_accepted(&Indexed::new(image, index), sizes, out),
        None => Err(Untrimmed::NotAccepted),
    }
}

// Trims `image` into `out`: the length of the trimmed image, or why `out` stays as it was.
pub fn trim_into(image: &[u8], out: &mut [u8]) -> Result<usize, Untrimmed>
    ensures { (result ≡ answer_for image.now out.old)
        × (out.new ≡ buffer_for image.now out.old) }
{
    // Two lengths of the index as in `with_index`: a proof does not learn what a closure leaves in the `out` that it captures.
    if image.len() <= IndexSize::SHORT_IMAGE {
        let mut index = [0usize; IndexSize::SHORT];
        return trim_by(image, &mut index, out);
    }
    let mut index = [0usize; IndexSize::LONG];
    trim_by(image, &mut index, out)
}

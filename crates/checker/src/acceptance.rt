// Whether an image is accepted, for the calls that need an accepted image: trimming, bills, replay, handover.
#![tactic(auto, using(crate::proofs::AcceptanceBranches::acceptance_branches, limits::proofs::BranchTests::tests))]

ghost use Rattle.std.specs.Prelude.{◌≡◌, replicate};
ghost use Rattle.image_index.specs.IndexTable.{table_size, index_of};
ghost use Rattle.checker_spec.specs.Acceptance.{granted_by, acceptance};

use crate::judge::judge_sound;
use image::decode::decode_image;
use image_header::sizes::Sizes;
use image_index::indexed::Indexed;
use image_index::table::fill_index;
use verdict_record::verdict::Verdict;

// The sizes of an image, if its verdict is acceptance.
fn granted_by(verdict: Verdict, sizes: Sizes) -> Option<Sizes>
    ensures { result ≡ granted_by sizes verdict }
{
    match verdict {
        Verdict::Accepted { .. } => Some(sizes),
        _ => None,
    }
}

// The sizes of an accepted image; none for an image that is not accepted.
pub fn accepted(image: &Indexed) -> Option<Sizes>
    ensures { result ≡ acceptance image.now }
{
    match decode_image(image) {
        Ok(sizes) => granted_by(judge_sound(image, sizes), sizes),
        Err(_) => None,
    }
}

// The same, for a caller that lends the index: `index`, table_size(image) zeros, is filled with where the image's records are.
pub fn accept_image(image: &[u8], index: &mut [usize]) -> Option<Sizes>
    requires { index.old ≡ replicate (table_size image.now) 0 }
    ensures { (result ≡ acceptance image.now) × (index.new ≡ index_of image.now) }
{
    fill_index(image, index);
    accepted(&Indexed::new(image, index))
}

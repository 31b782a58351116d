// Steps from record to record.
ghost use Rattle.std.specs.Prelude.{◌≡◌, drop};
ghost use Rattle.image_frames.specs.Records.{body};
ghost use Rattle.image_index.specs.IndexTable.{next_start};

use limits::read::{part, rest, u16_at};

// The position of the record after the one at `at`; at most the image's end.
#[tactic(auto, using(limits::proofs::BranchTests::tests), unfolding(crate::specs::IndexTable::next_start))]
pub fn next_start(image: &[u8], at: usize) -> usize
    ensures { result ≡ next_start image.now at }
{
    at.saturating_add(2 + u16_at(image, at)).min(image.len())
}

// The body of the record at `at`, without its length and its kind; empty past the end or for a length below 2.
#[tactic(auto, using(crate::proofs::IndexBranches::body_in, limits::proofs::BranchTests::tests))]
pub fn body_at(image: &[u8], at: usize) -> &[u8]
    ensures { result.now ≡ body (drop at image.now) }
{
    let record = rest(image, at);
    part(record, 4, u16_at(record, 0).saturating_sub(2))
}

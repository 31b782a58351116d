// Numbers of points, in total and before a thread, with a bound that every well-formed image keeps.
#![tactic(auto, using(crate::proofs::FewPoints::few_branches, limits::proofs::BranchTests::tests))]

ghost use Rattle.std.specs.Prelude.{◌≡◌, ◌-◌, ◌≤◌, Ok};
ghost use Rattle.image_frames.specs.Records.{bodies};
ghost use Rattle.image_bodies.specs.PointCounts.{point_counts_to};
ghost use Rattle.image.specs.Decode.{decoded};
ghost use Rattle.image_access.specs.Totals.{totals_of};
ghost use Rattle.handover_spec.specs.Table.{most_points};

use image_access::totals::{Counted, Totals};
use image_header::sizes::Sizes;

// The number of points of all threads. The function adds the bound, which `totals` alone does not have. It takes no `Counted`: it needs no
// index.
pub fn points_in(image: &[u8], sizes: Sizes, totals: Totals) -> usize
    requires { (decoded image.now ≡ Ok sizes) × (totals ≡ totals_of sizes (bodies image.now)) }
    ensures { (result ≡ totals.points) × (result ≤ most_points) }
{
    totals.points
}

// `Counted` is made of images that no one has decoded, too, so that these are decoded stands in the clauses.
// The number of points of the threads before thread `t`, with the bound.
pub fn points_before(records: &Counted, t: usize) -> usize
    requires { (decoded records.now.image.now ≡ Ok records.now.sizes) × ((1 ≤ t) × (t ≤ records.now.sizes.threads)) }
    ensures { (result ≡ (point_counts_to records.now.sizes (bodies records.now.image.now) (t - 1)).points)
        × (result ≤ most_points) }
{
    records.before_thread(t)
}

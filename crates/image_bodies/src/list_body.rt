// The outline, with a formula per point, and the obligations record, with a line per obligation.
ghost use Rattle.std.specs.Prelude.{◌≡◌};
ghost use Rattle.limits.specs.Numbers.{numbers, every};
ghost use Rattle.image_frames.specs.Records.{bodies};
ghost use Rattle.image_bodies.specs.PointCounts.{point_counts};
ghost use Rattle.image_bodies.specs.ListBody.{outlined_at, outline, obligations};

use crate::number_list::check_list;
use crate::outline_formulas::Outlined;
use crate::point_counts::{count_obligations, point_counts_of};
use image_frames::fault::Fault;
use image_header::sizes::Sizes;
use image_index::indexed::Indexed;
use limits::read::number_at;

// Whether each of the `n` formulas that `body` names is an assertion without start.
fn all_outlined(formulas: &Outlined, body: &[u8], n: usize) -> bool
    ensures { result ≡ every (outlined_at (bodies formulas.now.image.now)) (numbers n body.now) }
{
    (0..n).all(|i| formulas.formula_outlined(number_at(body, n, i)))
}

// Checks the outline: its length and numbers, then that each formula is an assertion without start.
#[tactic(auto, unfolding(crate::specs::ListBody::outline, image_frames::specs::Fault::unless, image_frames::specs::Fault::also))]
pub fn check_outline(formulas: &Outlined, body: &[u8]) -> Result<(), Fault>
    ensures { result ≡ outline formulas.now.sizes (bodies formulas.now.image.now) body.now }
{
    let n = count_points(formulas.image, formulas.sizes);
    check_list(body, n, 1, usize::from(formulas.sizes.formulas))?;
    if !all_outlined(formulas, body, n) {
        return Err(Fault::Sort);
    }
    Ok(())
}

// The number of points of all threads.
pub fn count_points(image: &Indexed, sizes: Sizes) -> usize
    ensures { result ≡ (point_counts sizes (bodies image.now)).points }
{
    point_counts_of(image, sizes).points
}

// Checks the obligations record: a line number, or 0 for none, per obligation.
// Image and sizes stay apart, since the clause names both by themselves, and a struct would lengthen it.
#[tactic(auto, unfolding(crate::specs::ListBody::obligations))]
pub fn check_obligations(image: &Indexed, sizes: Sizes, body: &[u8]) -> Result<(), Fault>
    ensures { result ≡ obligations sizes (bodies image.now) body.now }
{
    let n = count_obligations(image, sizes);
    check_list(body, n, 0, usize::from(sizes.lines))
}

// The outline: the position of the formula at a point.
ghost use Rattle.std.specs.Prelude.{◌≡◌, ◌<◌};
ghost use Rattle.image_frames.specs.Records.{bodies};
ghost use Rattle.image_header.specs.Thread.{last_point};
ghost use Rattle.image_bodies.specs.RecordPlaces.{thread_body};
ghost use Rattle.image_meaning.specs.Program.{outline_number};
ghost use Rattle.image_access.specs.AccessPlaces.{formula_at};

use crate::formula_position::formula_at;
use crate::totals::Counted;
use image_header::sizes::Sizes;
use image_header::thread::last_point;
use image_index::indexed::Indexed;
use limits::read::number_at;

// The last point of thread `t`. The sum saturates only for a number that no thread of an image has, and no record either.
// Image and sizes stay apart: no totals are read here, and handovers ask for a new image that has no `Counted`.
pub fn last_point_of(image: &Indexed, sizes: Sizes, t: usize) -> usize
    ensures { (result ≡ last_point (thread_body sizes (bodies image.now) t)) × (result < 256) }
{
    last_point(image.body_of(usize::from(sizes.formulas).saturating_add(t)))
}

// The number of the formula at `point` of thread `t`; 0 where there is none. The sum saturates only past the last point.
// Thread and point stay two numbers: each is tested and added by itself, so a struct of both would be taken apart at once.
#[tactic(auto, using(crate::proofs::Places::outline_found), unfolding(image_meaning::specs::Program::outline_number))]
fn outline_number(records: &Counted, t: usize, point: usize) -> usize
    ensures { result ≡ outline_number records.now.sizes (bodies records.now.image.now) t point }
{
    if t == 0 || usize::from(records.sizes.threads) < t {
        return 0;
    }
    let outline = usize::from(records.sizes.formulas) + usize::from(records.sizes.threads) + 1;
    let body = records.image.body_of(outline);
    number_at(
        body,
        records.totals.points,
        records.before_thread(t).saturating_add(point),
    )
}

// The position of the formula at `point` of thread `t`; the end of the image where there is none.
pub fn outline_at(records: &Counted, t: usize, point: usize) -> usize
    ensures { result ≡ formula_at records.now.image.now (outline_number records.now.sizes (bodies records.now.image.now) t point) }
{
    formula_at(records.image, outline_number(records, t, point))
}

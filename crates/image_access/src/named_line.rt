// The line that an obligation names.
ghost use Rattle.std.specs.Prelude.{◌≡◌, ◌<◌, ◌+◌};
ghost use Rattle.image_frames.specs.Records.{bodies};
ghost use Rattle.image_meaning.specs.Image.{named_line};

use crate::totals::Counted;
use image_header::sizes::Sizes;
use limits::read::number_at;

// The number of records before that of the obligations.
fn before_obligations(sizes: Sizes) -> usize
    ensures { result ≡ sizes.formulas + sizes.threads + 1 + sizes.lines + 1 }
{
    usize::from(sizes.formulas) + usize::from(sizes.threads) + 1 + usize::from(sizes.lines) + 1
}

// The line that obligation `i`, counted from 0, names; 0 for no line.
#[tactic(auto, unfolding(image_meaning::specs::Image::named_line, crate::specs::Totals::totals_of))]
pub fn named_line(records: &Counted, i: usize) -> usize
    ensures { (result ≡ named_line records.now.sizes (bodies records.now.image.now) i) × (result < 65536) }
{
    let body = records.image.body_of(before_obligations(records.sizes));
    number_at(body, records.totals.obligations, i)
}

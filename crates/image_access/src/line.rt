// A line and its premises, by the line's number.
ghost use Rattle.std.specs.Prelude.{◌≡◌, ◌<◌, get_or};
ghost use Rattle.image_frames.specs.Records.{bodies};
ghost use Rattle.image_bodies.specs.Line.{premises};
ghost use Rattle.image_meaning.specs.Certificate.{line_body};
ghost use Rattle.image_access.specs.AccessPlaces.{line_in};

use crate::formula_position::formula_at;
use image_bodies::line::premise;
use image_header::sizes::Sizes;
use image_index::indexed::Indexed;
use limits::read::{u8_at, u16_at};

// A line: its rule, thread and point, the positions of its formulas, and the number of its premises.
#[derive(Clone, Copy)]
pub struct Line {
    pub rule: u8,
    pub thread: u8,
    pub point: u8,
    pub left: usize,
    pub right: usize,
    pub count: u8,
}

// The body of line `number`. The sum saturates only for a number that no line of an image has, and no record either.
// Image and sizes stay apart: `Counted` would bring totals, which the pass over the lines neither counts nor reads.
fn line_body<'a>(image: &Indexed<'a, '_>, sizes: Sizes, number: usize) -> &'a [u8]
    ensures { result.now ≡ line_body sizes (bodies image.now) number }
{
    let before = usize::from(sizes.formulas) + usize::from(sizes.threads) + 1;
    image.body_of(before.saturating_add(number))
}

// The line in `body`, with its formulas by position.
#[tactic(auto, unfolding(crate::specs::AccessPlaces::line_in))]
fn read_line(image: &Indexed, body: &[u8]) -> Line
    ensures { result ≡ line_in image.now body.now }
{
    Line {
        rule: u8_at(body, 0),
        thread: u8_at(body, 1),
        point: u8_at(body, 2),
        left: formula_at(image, u16_at(body, 3)),
        right: formula_at(image, u16_at(body, 5)),
        count: u8_at(body, 7),
    }
}

// Line `number`, with its formulas by position.
pub fn line_of(image: &Indexed, sizes: Sizes, number: usize) -> Line
    ensures { result ≡ line_in image.now (line_body sizes (bodies image.now) number) }
{
    read_line(image, line_body(image, sizes, number))
}

// The premise of line `number` at index `j`, from 0; 0 where there is none.
pub fn premise_of(image: &Indexed, sizes: Sizes, number: usize, j: usize) -> usize
    ensures { (result ≡ get_or (premises (line_body sizes (bodies image.now) number)) j 0) × (result < 65536) }
{
    premise(line_body(image, sizes, number), j)
}

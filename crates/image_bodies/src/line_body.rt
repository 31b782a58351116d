// A line's record: its numbers, then the sorts of its formulas.
ghost use Rattle.std.specs.Prelude.{◌≡◌};
ghost use Rattle.image_frames.specs.Records.{bodies};
ghost use Rattle.image_bodies.specs.LineBody.{sort_at, sorted_by, line_sorted, line};

use crate::formula_use::is_sort;
use crate::line::{Form, check_line_numbers, line_form};
use crate::outline_formulas::Outlined;
use formula::code::Place;
use image_frames::fault::Fault;
use image_index::indexed::Indexed;
use limits::read::u16_at;

// Whether formula `number` has the sort `sort`.
#[tactic(auto, unfolding(crate::specs::LineBody::sort_at))]
fn formula_of_sort(image: &Indexed, sort: u8, number: usize) -> bool
    ensures { result ≡ sort_at (bodies image.now) sort number }
{
    is_sort(image.body_of(number), sort)
}

// Whether formula `number` may be a side of a line of this form. An unlisted rule is refused before, with code 6.
#[tactic(auto, unfolding(crate::specs::LineBody::sorted_by))]
fn formula_fits(formulas: &Outlined, form: Form, number: usize) -> bool
    ensures { result ≡ sorted_by (bodies formulas.now.image.now) form number }
{
    match form {
        Form::Triple | Form::Pair => formulas.formula_outlined(number),
        Form::Implication => formula_of_sort(formulas.image, Place::ASSERTION, number),
        Form::Inclusion => formula_of_sort(formulas.image, Place::INTERVAL, number),
        Form::Unlisted => true,
    }
}

// Whether both sides of the line have the sort that its form needs.
#[tactic(auto, unfolding(crate::specs::LineBody::line_sorted))]
fn line_sorted(formulas: &Outlined, body: &[u8]) -> bool
    ensures { result ≡ line_sorted (bodies formulas.now.image.now) body.now }
{
    let form = line_form(body);
    formula_fits(formulas, form, u16_at(body, 3)) && formula_fits(formulas, form, u16_at(body, 5))
}

// Checks a line that has `lower` lines before it: its numbers, then its formulas.
#[tactic(auto, unfolding(crate::specs::LineBody::line, image_frames::specs::Fault::unless, image_frames::specs::Fault::also))]
pub fn check_line(formulas: &Outlined, lower: usize, body: &[u8]) -> Result<(), Fault>
    ensures { result ≡ line formulas.now.sizes (bodies formulas.now.image.now) lower body.now }
{
    check_line_numbers(formulas.image, formulas.sizes, lower, body)?;
    if !line_sorted(formulas, body) {
        return Err(Fault::Sort);
    }
    Ok(())
}

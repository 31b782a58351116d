// One pass over the lines. A line's premises have lower numbers, so their marks are set before it is judged.
ghost use Rattle.std.specs.Prelude.{◌≡◌};
ghost use Rattle.rules_justified.specs.Marks.{as_marks};
ghost use Rattle.rules_justified.specs.Justify.{premises_marked, is_justified, marks_to};

use crate::marks::{Marks, is_marked, set_mark};
use image_access::line::{line_of, premise_of};
use image_header::sizes::Sizes;
use image_index::indexed::Indexed;
use limits::Limits;
use rules_line::rule_instance::fits_line;
use rules_table::template::all_templates;

// The first `count` premises of line `number` have marks.
// Image, sizes and number stay apart: `Counted` would bring totals, which the pass over the lines neither counts nor reads.
#[tactic(auto, using(crate::proofs::JustifyBranches::premises_marked_branches))]
fn premises_marked(
    image: &Indexed,
    sizes: Sizes,
    number: usize,
    count: usize,
    marks: &[bool],
) -> bool
    ensures { result ≡ premises_marked image.now sizes number (as_marks marks.now) count }
{
    for j in 0..count {
        if !is_marked(marks, premise_of(image, sizes, number, j)) {
            return false;
        }
    }
    true
}

// Line `number` is an instance of its rule, and all its premises have marks. (The marks are asked for first, because that is quicker.)
#[tactic(auto, using(crate::proofs::JustifyBranches::is_justified_branches))]
fn is_justified(
    image: &Indexed,
    templates: &[u8],
    sizes: Sizes,
    number: usize,
    marks: &[bool],
) -> bool
    ensures { result ≡ is_justified image.now templates.now sizes number (as_marks marks.now) }
{
    let line = line_of(image, sizes, number);
    premises_marked(image, sizes, number, usize::from(line.count), marks)
        && fits_line(image, templates, sizes, number)
}

// The marks of all lines: a line is marked if it is justified. They are set in place, in one array.
pub fn judge_lines(image: &Indexed, sizes: Sizes) -> Marks
    ensures { result ≡ marks_to image.now sizes sizes.lines }
{
    let templates = all_templates();
    let mut on = [false; Limits::LINES];
    for n in 1..=usize::from(sizes.lines) {
        let justified = is_justified(image, &templates.bytes, sizes, n, &on);
        set_mark(&mut on, n, justified);
    }
    Marks { on }
}

// What the lines of a certificate conclude.
#![tactic(auto, using(crate::proofs::LineConclusionBranches::line_conclusion_branches))]

ghost use Rattle.std.specs.Prelude.{◌≡◌};
ghost use Rattle.rules_line.specs.LineConclusion.{spoken_form, conclusion_by, conclusion_of};
ghost use Rattle.rules_table.specs.RuleTable.{rule_row};

use crate::conclusion::Conclusion;
use image_access::line::{Line, line_of};
use image_bodies::instruction_at::instruction_of;
use image_header::instruction::is_pair;
use image_header::sizes::Sizes;
use image_index::indexed::Indexed;
use rules_table::rule::{Form, form_at};

// The form of a line is that of its rule; a line of rule 50 at a point that has no pair counts as an ordinary triple.
fn spoken_form(rule: u8, operation: u8) -> Form
    ensures { result ≡ spoken_form (rule_row rule).form operation }
{
    match form_at(rule) {
        Form::Pair if !is_pair(operation) => Form::Triple,
        form => form,
    }
}

// What the line concludes, given the operation at its thread and point.
pub fn conclusion_by(line: Line, operation: u8) -> Conclusion
    ensures { result ≡ conclusion_by line operation }
{
    Conclusion {
        form: spoken_form(line.rule, operation),
        thread: usize::from(line.thread),
        point: usize::from(line.point),
        left: line.left,
        right: line.right,
    }
}

// What line `number` concludes. The instruction is looked up for a line of rule 50 alone; for others it makes no difference.
// Image and sizes stay apart: `Counted` would bring totals, which the pass over the lines neither counts nor reads.
pub fn conclusion_of(image: &Indexed, sizes: Sizes, number: usize) -> Conclusion
    ensures { result ≡ conclusion_of image.now sizes number }
{
    let line = line_of(image, sizes, number);
    match form_at(line.rule) {
        Form::Pair => {
            let instruction = instruction_of(
                image,
                sizes,
                usize::from(line.thread),
                usize::from(line.point),
            );
            conclusion_by(line, instruction.operation)
        }
        _ => conclusion_by(line, 0),
    }
}

// Live formulas: those that an instruction, the outline or a live line names.
#![tactic(auto, using(crate::proofs::LiveFormulaBranches::live_formulas_branches, limits::proofs::BranchTests::tests))]

ghost use Rattle.std.specs.Prelude.{◌≡◌, false, suc, ◌<◌, replicate};
ghost use Rattle.limits.specs.Limits.{formulas};
ghost use Rattle.image_frames.specs.Records.{bodies};
ghost use Rattle.trim_spec.specs.Live.{marked_by, instruction_formulas, kept, used};
ghost use Rattle.trim_spec.specs.Parse.{document_of};
ghost use Rattle.trim_encode.specs.NamedNumbers.{body_formulas, thread_formulas, sides_of, marked_sides, marked_formulas};

use crate::marks::{is_marked, mark_number, mark_numbers};
use crate::recorded::Recorded;
use image_bodies::point_counts::point_counts_of;
use image_header::instruction::Instruction;
use image_header::thread::{begins_behind, instruction_from, last_point};
use limits::read::u16_at;

// Marks the formulas of an instruction. A formula that it does not have is 0, and mark 0 belongs to no formula.
fn mark_instruction(instruction: Instruction, marks: &mut [bool])
    ensures { marks.new ≡ marked_by marks.old (instruction_formulas instruction) }
{
    mark_number(marks, instruction.formula);
    mark_number(marks, instruction.second.formula);
}

// Marks the formulas of the instructions in a thread's body.
fn mark_thread(body: &[u8], marks: &mut [bool])
    ensures { marks.new ≡ marked_by marks.old (body_formulas body.now 0) }
{
    let mut at: usize = 0;
    for point in 0..last_point(body) {
        mark_instruction(instruction_from(body, point, at), marks);
        at = begins_behind(body, point, at);
    }
}

// Marks the formulas of the instructions of all threads.
fn mark_threads(image: &Recorded, marks: &mut [bool])
    ensures { marks.new ≡ marked_by marks.old (thread_formulas image.now.sizes (bodies image.now.indexed.now) 0) }
{
    for t in 0..usize::from(image.sizes.threads) {
        let body = image
            .indexed
            .body_of(usize::from(image.sizes.formulas) + (t + 1));
        mark_thread(body, marks);
    }
}

fn mark_outline(image: &Recorded, marks: &mut [bool])
    ensures { marks.new ≡ marked_by marks.old (document_of image.now.sizes (bodies image.now.indexed.now)).outline }
{
    let sizes = image.sizes;
    let before = usize::from(sizes.formulas) + usize::from(sizes.threads);
    let body = image.indexed.body_of(before + 1);
    let counts = point_counts_of(image.indexed, sizes);
    mark_numbers(body, counts.points, marks);
}

// Marks the left and the right formula of the line with this body.
fn mark_sides(body: &[u8], marks: &mut [bool])
    ensures { marks.new ≡ marked_by marks.old (sides_of body.now) }
{
    mark_number(marks, u16_at(body, 3));
    mark_number(marks, u16_at(body, 5));
}

// Marks the formulas of line `number`, if it is live.
fn mark_line(image: &Recorded, live_lines: &[bool], number: usize, marks: &mut [bool])
    requires { number < 65536 }
    ensures { marks.new ≡ marked_by marks.old (marked_sides image.now.sizes (bodies image.now.indexed.now)
        live_lines.now number) }
{
    if is_marked(live_lines, number) {
        let sizes = image.sizes;
        let before = usize::from(sizes.formulas) + usize::from(sizes.threads) + 1;
        let body = image.indexed.body_of(before + number);
        mark_sides(body, marks);
    }
}

// Marks the formulas of all live lines.
fn mark_lines(image: &Recorded, live_lines: &[bool], marks: &mut [bool])
    ensures { marks.new ≡ marked_by marks.old (marked_formulas image.now.sizes (bodies image.now.indexed.now)
        live_lines.now 0) }
{
    for n in 0..usize::from(image.sizes.lines) {
        mark_line(image, live_lines, n + 1, marks);
    }
}

// Marks the live formulas; no mark is set before, and `live_lines` marks the live lines.
pub fn mark_live_formulas(image: &Recorded, live_lines: &[bool], marks: &mut [bool])
    requires { (live_lines.now ≡ kept (document_of image.now.sizes (bodies image.now.indexed.now))) × (marks.old ≡ replicate (suc formulas) false) }
    ensures { marks.new ≡ used (document_of image.now.sizes (bodies image.now.indexed.now)) }
{
    mark_threads(image, marks);
    mark_outline(image, marks);
    mark_lines(image, live_lines, marks);
}

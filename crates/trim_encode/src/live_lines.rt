// Live lines: those that an obligation or a claim names, and the premises of live lines.
#![tactic(auto, using(crate::proofs::LiveLineBranches::live_lines_branches, limits::proofs::BranchTests::tests))]

ghost use Rattle.std.specs.Prelude.{◌≡◌, false, suc, ◌<◌, replicate};
ghost use Rattle.limits.specs.Limits.{lines};
ghost use Rattle.image_frames.specs.Records.{bodies};
ghost use Rattle.image_bodies.specs.Line.{premises};
ghost use Rattle.trim_spec.specs.Live.{marked_by, kept_to, kept};
ghost use Rattle.trim_spec.specs.Parse.{document_of};
ghost use Rattle.trim_encode.specs.NamedNumbers.{claim_lines, with_premises};

use crate::marks::{is_marked, mark_number, mark_numbers};
use crate::recorded::Recorded;
use image_access::claim::claim_of;
use image_bodies::point_counts::count_obligations;
use limits::read::{byte_at, rest};

// Marks the lines that obligations name.
fn mark_obligations(image: &Recorded, marks: &mut [bool])
    ensures { marks.new ≡ marked_by marks.old (document_of image.now.sizes (bodies image.now.indexed.now)).obligations }
{
    let sizes = image.sizes;
    let body = image.indexed.body_of(
        usize::from(sizes.formulas) + usize::from(sizes.threads) + 1 + usize::from(sizes.lines) + 1,
    );
    mark_numbers(body, count_obligations(image.indexed, sizes), marks);
}

// Marks the lines that claims name.
fn mark_claims(image: &Recorded, marks: &mut [bool])
    ensures { marks.new ≡ marked_by marks.old (claim_lines image.now.sizes (bodies image.now.indexed.now)) }
{
    for i in 0..usize::from(image.sizes.claims) {
        let claim = claim_of(image.indexed, image.sizes, i);
        mark_number(marks, claim.line);
    }
}

// Marks the premises of the line with this body.
fn mark_premises(body: &[u8], marks: &mut [bool])
    ensures { marks.new ≡ marked_by marks.old (premises body.now) }
{
    mark_numbers(rest(body, 8), byte_at(body, 7), marks);
}

// Marks the premises of line `number`, if it is marked itself.
fn mark_line(image: &Recorded, number: usize, marks: &mut [bool])
    requires { number < 65536 }
    ensures { marks.new ≡ with_premises image.now.sizes (bodies image.now.indexed.now) number marks.old }
{
    if is_marked(marks, number) {
        let sizes = image.sizes;
        let before = usize::from(sizes.formulas) + usize::from(sizes.threads) + 1;
        let body = image.indexed.body_of(before + number);
        mark_premises(body, marks);
    }
}

// Marks the premises of marked lines, from the last line down: premises have lower numbers, so one pass reaches them all.
fn mark_lines(image: &Recorded, marks: &mut [bool])
    ensures { marks.new ≡ kept_to (document_of image.now.sizes (bodies image.now.indexed.now)).lines image.now.sizes.lines
        marks.old }
{
    for n in (0..usize::from(image.sizes.lines)).rev() {
        mark_line(image, n + 1, marks);
    }
}

// Marks the live lines; no mark is set before.
pub fn mark_live_lines(image: &Recorded, marks: &mut [bool])
    requires { marks.old ≡ replicate (suc lines) false }
    ensures { marks.new ≡ kept (document_of image.now.sizes (bodies image.now.indexed.now)) }
{
    mark_obligations(image, marks);
    mark_claims(image, marks);
    mark_lines(image, marks);
}

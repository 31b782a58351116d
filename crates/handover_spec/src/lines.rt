// Whether the lines that a handover table names serve; code 34 if one does not.
ghost use Rattle.std.specs.Prelude.{◌≡◌, ◌+◌, ◌≤◌, ◌<◌, get_or, Ok};
ghost use Rattle.image.specs.Decode.{decoded};
ghost use Rattle.image_bodies.specs.Line.{form_of};
ghost use Rattle.rules_justified.specs.Marks.{as_marks};
ghost use Rattle.handover_spec.specs.LinesFound.{assertion_of, is_implication, sides_match, line_serves, entry_serves, entries_serve, thread_serves, threads_serve};

use crate::entries::{line_named, point_named};
use crate::points::points_before;
use crate::same_bytes::same_bytes;
use image_access::outline_point::last_point_of;
use image_access::totals::Counted;
use image_bodies::line::{Form, line_form};
use image_header::sizes::Sizes;
use image_index::indexed::Indexed;
use limits::read::{number_at, u16_at};
use rules_justified::marks::is_marked;

// `Counted` is made of images that no one has decoded, too, so that these are decoded stands in the clauses.
// The bytes of the assertion at `point` of thread `t`.
#[tactic(auto, using(crate::proofs::LineBranches::assertion_read, limits::proofs::BranchTests::tests))]
fn assertion_of<'a>(records: &Counted<'a>, t: usize, point: usize) -> &'a [u8]
    requires { (decoded records.now.image.now ≡ Ok records.now.sizes)
        × (((1 ≤ t) × (t ≤ records.now.sizes.threads)) × (point < 256)) }
    ensures { result.now ≡ assertion_of records.now.image.now records.now.sizes t point }
{
    let outline = usize::from(records.sizes.formulas) + usize::from(records.sizes.threads) + 1;
    let body = records.image.body_of(outline);
    let n = points_before(records, t);
    records
        .image
        .body_of(number_at(body, records.totals.points, n + point))
}

// Whether the line with this body is an implication.
#[tactic(auto, using(crate::proofs::LineBranches::is_implication_branches, limits::proofs::BranchTests::tests))]
fn is_implication(body: &[u8]) -> bool
    ensures { result ≡ is_implication (form_of (get_or body.now 0 0)) }
{
    matches!(line_form(body), Form::Implication)
}

// Whether the formulas of the line with this body are `left` and `right`, byte by byte.
#[tactic(auto, using(crate::proofs::LineBranches::sides_match_branches, limits::proofs::BranchTests::tests))]
fn sides_match(image: &Indexed, body: &[u8], left: &[u8], right: &[u8]) -> bool
    ensures { result ≡ sides_match image.now body.now left.now right.now }
{
    same_bytes(left, image.body_of(u16_at(body, 3)))
        && same_bytes(right, image.body_of(u16_at(body, 5)))
}

// Whether line `number` is justified, by its mark, and an implication from `left` to `right`.
#[tactic(auto, using(crate::proofs::LineBranches::line_serves_branches, limits::proofs::BranchTests::tests))]
fn line_serves(
    image: &Indexed,
    sizes: Sizes,
    marks: &[bool],
    number: usize,
    left: &[u8],
    right: &[u8],
) -> bool
    requires { number < 65536 }
    ensures { result ≡ line_serves image.now sizes (as_marks marks.now) number left.now
        right.now }
{
    if !is_marked(marks, number) {
        return false;
    }
    let lines = usize::from(sizes.formulas) + usize::from(sizes.threads) + 1;
    let body = image.body_of(lines + number);
    is_implication(body) && sides_match(image, body, left, right)
}

// Whether entry `i`, that of `point` of thread `t`, names a line that takes the old point's assertion to the new point's.
#[tactic(auto, using(crate::proofs::LineBranches::entry_served, limits::proofs::BranchTests::tests))]
fn entry_serves(
    old: &Counted,
    new: &Counted,
    marks: &[bool],
    table: &[u8],
    t: usize,
    point: usize,
    i: usize,
) -> bool
    requires { ((decoded old.now.image.now ≡ Ok old.now.sizes) × (decoded new.now.image.now ≡ Ok new.now.sizes))
        × (((1 ≤ t) × (t ≤ old.now.sizes.threads)) × ((t ≤ new.now.sizes.threads) × ((point < 256) × (i < 65536)))) }
    ensures { result ≡ entry_serves old.now.image.now old.now.sizes new.now.image.now new.now.sizes (as_marks marks.now)
        table.now t point i }
{
    let left = assertion_of(old, t, point);
    let right = assertion_of(new, t, point_named(table, i));
    let number = line_named(table, i);
    line_serves(new.image, new.sizes, marks, number, left, right)
}

// Whether the lines in entries `from` to `from + n - 1`, those of points 0 to `n - 1` of thread `t`, serve.
#[tactic(auto, using(crate::proofs::LineBranches::entries_serve_branches, limits::proofs::BranchTests::tests))]
fn entries_serve(
    old: &Counted,
    new: &Counted,
    marks: &[bool],
    table: &[u8],
    t: usize,
    from: usize,
    n: usize,
) -> bool
    requires { ((decoded old.now.image.now ≡ Ok old.now.sizes) × (decoded new.now.image.now ≡ Ok new.now.sizes))
        × (((1 ≤ t) × (t ≤ old.now.sizes.threads)) × ((t ≤ new.now.sizes.threads) × ((n ≤ 256) × (from + n < 65536)))) }
    ensures { result ≡ entries_serve old.now.image.now old.now.sizes new.now.image.now new.now.sizes (as_marks marks.now)
        table.now t from n }
{
    for k in 0..n {
        if !entry_serves(old, new, marks, table, t, k, from + k) {
            return false;
        }
    }
    true
}

// Whether the lines in the entries of thread `t` serve.
#[tactic(auto, using(crate::proofs::LineBranches::thread_served, limits::proofs::BranchTests::tests))]
fn thread_serves(old: &Counted, new: &Counted, marks: &[bool], table: &[u8], t: usize) -> bool
    requires { ((decoded old.now.image.now ≡ Ok old.now.sizes) × (decoded new.now.image.now ≡ Ok new.now.sizes))
        × (((1 ≤ t) × (t ≤ old.now.sizes.threads)) × (t ≤ new.now.sizes.threads)) }
    ensures { result ≡ thread_serves old.now.image.now old.now.sizes new.now.image.now new.now.sizes (as_marks marks.now)
        table.now t }
{
    let from = points_before(old, t);
    let last = last_point_of(old.image, old.sizes, t);
    entries_serve(old, new, marks, table, t, from, last + 1)
}

// Whether every line that the table names is a justified implication from the old point's assertion to the new point's; `marks` are the
// marks of the new image's justified lines.
#[tactic(auto, using(crate::proofs::LineBranches::lines_serve_branches, limits::proofs::BranchTests::tests))]
pub fn lines_serve(old: &Counted, new: &Counted, marks: &[bool], table: &[u8]) -> bool
    requires { ((decoded old.now.image.now ≡ Ok old.now.sizes) × (decoded new.now.image.now ≡ Ok new.now.sizes))
        × (old.now.sizes.threads ≡ new.now.sizes.threads) }
    ensures { result ≡ threads_serve old.now.image.now old.now.sizes new.now.image.now new.now.sizes (as_marks marks.now)
        table.now
        old.now.sizes.threads }
{
    for t in 0..usize::from(old.sizes.threads) {
        if !thread_serves(old, new, marks, table, t + 1) {
            return false;
        }
    }
    true
}

// The length of the trimmed image: each record that stays keeps its length, so it is shorter by the formulas and lines that are left out.
#![tactic(auto, using(crate::proofs::LengthTrimmed::trimmed_length_branches, limits::proofs::BranchTests::tests))]

ghost use Rattle.std.specs.Prelude.{◌≡◌, [], ◌+◌, ◌*◌, ◌≤◌, ◌<◌, length, get_or};
ghost use Rattle.limits.specs.Limits.{image_bytes};
ghost use Rattle.image_frames.specs.Records.{bodies};
ghost use Rattle.trim_spec.specs.Encode.{encode};
ghost use Rattle.trim_spec.specs.Live.{kept, used};
ghost use Rattle.trim_spec.specs.Trim.{trim};
ghost use Rattle.trim_encode.specs.LeftOutBytes.{left_one, left_behind, most};
ghost use Rattle.trim_encode.specs.Said.{said};

use crate::marks::is_marked;
use crate::well_formed::WellFormed;

// The bytes of the record with index `i` (length and kind are 4 of them) if `number` has no mark, else 0.
fn left_one(image: &WellFormed, i: usize, marks: &[bool], number: usize) -> usize
    ensures { (result ≡ left_one marks.now number (length (get_or (bodies image.now.indexed.now) i []))) × (result ≤ image_bytes + 4) }
{
    if is_marked(marks, number) {
        return 0;
    }
    image.indexed.body_of(i).len() + 4
}

// The bytes left out of the `count` records after the one with index `from`, which are numbered from 1.
fn left_out(image: &WellFormed, from: usize, count: usize, marks: &[bool]) -> usize
    requires { (from + 1 + count ≤ length (bodies image.now.indexed.now)) × ((from < 131072) × (count < 65536)) }
    ensures { (result ≡ left_behind (bodies image.now.indexed.now) from count marks.now 0) × (result ≤ (image_bytes + 4) * count) }
{
    let mut bytes: usize = 0;
    for i in 0..count {
        bytes += left_one(image, from + (i + 1), marks, i + 1);
    }
    bytes
}

// The bytes of the formulas that are not live.
fn left_formulas(image: &WellFormed, live_formulas: &[bool]) -> usize
    ensures { (result ≡ left_behind (bodies image.now.indexed.now) 0 image.now.sizes.formulas live_formulas.now 0) × (result < most) }
{
    left_out(image, 0, usize::from(image.sizes.formulas), live_formulas)
}

// The bytes of the lines that are not live.
fn left_lines(image: &WellFormed, live_lines: &[bool]) -> usize
    ensures { (result ≡ left_behind (bodies image.now.indexed.now)
        (image.now.sizes.formulas + image.now.sizes.threads + 1) image.now.sizes.lines live_lines.now 0)
        × (result < most) }
{
    let sizes = image.sizes;
    let before = usize::from(sizes.formulas) + usize::from(sizes.threads) + 1;
    left_out(image, before, usize::from(sizes.lines), live_lines)
}

// The length of the trimmed image, by the marks of live lines and formulas.
pub fn trimmed_length(image: &WellFormed, live_lines: &[bool], live_formulas: &[bool]) -> usize
    requires { (live_lines.now ≡ kept (said image.now)) × (live_formulas.now ≡ used (said image.now)) }
    ensures { result ≡ length (encode (trim (said image.now))) }
{
    let formulas = left_formulas(image, live_formulas);
    let lines = left_lines(image, live_lines);
    image.indexed.bytes().len() - (formulas + lines)
}

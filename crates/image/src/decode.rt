// The frames of an image, then all its bodies, first to last.
ghost use Rattle.std.specs.Prelude.{◌≡◌, ◌<◌};
ghost use Rattle.image_frames.specs.Records.{bodies};
ghost use Rattle.image.specs.Decode.{record_count, sizes_of, first_fault, decoded};

use crate::body::check_body;
use image_bodies::outline_formulas::Outlined;
use image_frames::fault::Refusal;
use image_frames::walk::{RecordCounts, read_frames};
use image_header::header::{Header, range_of};
use image_header::sizes::Sizes;
use image_index::indexed::Indexed;
use limits::read::u8_at;

// The number of records of an image with these sizes.
#[tactic(auto, using(limits::proofs::BranchTests::tests), unfolding(crate::specs::Decode::record_count))]
fn record_count(sizes: Sizes) -> usize
    ensures { (result ≡ record_count sizes) × (result < 1000000) }
{
    3 + usize::from(sizes.formulas)
        + usize::from(sizes.threads)
        + usize::from(sizes.lines)
        + usize::from(sizes.claims)
}

// The sizes of an image: from the header's bytes, and the records that the frames counted.
#[tactic(auto, using(crate::proofs::DecodeBranches::Whole::decode_branches, limits::proofs::BranchTests::tests))]
fn sizes_of(header: &[u8], counts: RecordCounts) -> Sizes
    ensures { result ≡ sizes_of header.now counts.formulas counts.lines counts.claims }
{
    Sizes {
        threads: u8_at(header, Header::THREADS),
        words: u8_at(header, Header::WORDS),
        registers: u8_at(header, Header::REGISTERS),
        range: range_of(header),
        formulas: counts.formulas,
        lines: counts.lines,
        claims: counts.claims,
    }
}

// Checks all bodies, first to last; `threads` is the number of thread records that the frames counted.
#[tactic(auto, using(crate::proofs::DecodeBranches::Whole::check_bodies_branches, limits::proofs::BranchTests::tests))]
fn check_bodies(formulas: &Outlined, threads: usize) -> Result<Sizes, Refusal>
    ensures { result ≡ first_fault threads formulas.now.sizes (bodies formulas.now.image.now) 1 (record_count formulas.now.sizes) (bodies formulas.now.image.now) }
{
    for i in 0..record_count(formulas.sizes) {
        check_body(formulas, threads, i + 1, formulas.image.body_of(i)).map_err(|fault| Refusal {
            fault,
            record: i + 1,
        })?;
    }
    Ok(formulas.sizes)
}

// Checks a whole image, frames before bodies, up to the first fault.
#[tactic(auto, using(crate::proofs::DecodeBranches::Whole::decode_branches, limits::proofs::BranchTests::tests))]
pub fn decode_image(image: &Indexed) -> Result<Sizes, Refusal>
    ensures { result ≡ decoded image.now }
{
    let counts = read_frames(image.bytes())?;
    let sizes = sizes_of(image.body_of(0), counts);
    check_bodies(&Outlined::new(image, sizes), usize::from(counts.threads))
}

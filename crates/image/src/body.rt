// The body of one record, checked by its place among the records.
ghost use Rattle.std.specs.Prelude.{◌≡◌};
ghost use Rattle.image_frames.specs.Records.{bodies};
ghost use Rattle.image.specs.Body.{place_of, check};

use image_bodies::claim::check_claim;
use image_bodies::formula_body::check_formula;
use image_bodies::line_body::check_line;
use image_bodies::list_body::{check_obligations, check_outline};
use image_bodies::outline_formulas::Outlined;
use image_bodies::thread_body::check_thread;
use image_frames::fault::Fault;
use image_header::header::check_header;
use image_header::sizes::Sizes;

// What a record is: of a thread its number, of a line the number of lines before it.
#[derive(Clone, Copy)]
pub enum Place {
    Header,
    Formula,
    Thread(u8),
    Outline,
    Line(usize),
    Obligations,
    Claim,
}

// What record `i` is, counted from 1.
#[tactic(auto, using(limits::proofs::BranchTests::tests), unfolding(crate::specs::Body::place_of))]
fn place_of(sizes: Sizes, i: usize) -> Place
    ensures { result ≡ place_of sizes i }
{
    let formulas = 1 + usize::from(sizes.formulas);
    let threads = formulas + usize::from(sizes.threads);
    let outline = threads + 1;
    let lines = outline + usize::from(sizes.lines);
    if i == 1 {
        Place::Header
    } else if i <= formulas {
        Place::Formula
    } else if i <= threads {
        Place::Thread((i - formulas) as u8)
    } else if i <= outline {
        Place::Outline
    } else if i <= lines {
        Place::Line(i - outline - 1)
    } else if i <= lines + 1 {
        Place::Obligations
    } else {
        Place::Claim
    }
}

// Checks the body of record `i`; `threads` is the number of thread records that the frames counted.
#[tactic(auto, using(crate::proofs::DecodeBranches::Whole::check_body_branches, limits::proofs::BranchTests::tests))]
pub fn check_body(formulas: &Outlined, threads: usize, i: usize, body: &[u8]) -> Result<(), Fault>
    ensures { result ≡ check threads formulas.now.sizes (bodies formulas.now.image.now) (place_of formulas.now.sizes i) body.now }
{
    let image = formulas.image;
    let sizes = formulas.sizes;
    match place_of(sizes, i) {
        Place::Header => check_header(body, threads),
        Place::Formula => check_formula(body, sizes),
        Place::Thread(u) => check_thread(image, sizes, u, body),
        Place::Outline => check_outline(formulas, body),
        Place::Line(lower) => check_line(formulas, lower, body),
        Place::Obligations => check_obligations(image, sizes, body),
        Place::Claim => check_claim(image, sizes, body),
    }
}

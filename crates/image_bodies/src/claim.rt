// A claim record: thread, point, other thread, other point (bytes), line (16 bits).
ghost use Rattle.std.specs.Prelude.{◌≡◌, ◌≤◌};
ghost use Rattle.image_frames.specs.Records.{bodies};
ghost use Rattle.image_bodies.specs.Claim.{point_there, different, claimed, claim};

use image_frames::fault::Fault;
use image_header::sizes::Sizes;
use image_header::thread::last_point;
use image_index::indexed::Indexed;
use limits::range::{in_range, u16_within};
use limits::read::byte_at;

// Positions in a claim's body, and its length.
#[derive(Drop)]
pub struct Claim;

impl Claim {
    pub const FIRST: usize = 0;

    pub const SECOND: usize = 2;

    pub const LINE: usize = 4;

    pub const SIZE: usize = 6;
}

// Whether the byte at position `i` is a thread that the image has, and the byte after it one of its points, the last one included.
// Image and sizes stay apart, since each clause names both by themselves, and a struct would lengthen it.
#[tactic(auto, unfolding(crate::specs::Claim::point_there, crate::specs::RecordPlaces::thread_body))]
fn point_there(image: &Indexed, sizes: Sizes, body: &[u8], i: usize) -> bool
    requires { i ≤ 2 }
    ensures { result ≡ point_there sizes (bodies image.now) body.now i }
{
    let t = byte_at(body, i);
    if !in_range(t, 1, usize::from(sizes.threads)) {
        return false;
    }
    let thread = image.body_of(usize::from(sizes.formulas) + t);
    in_range(byte_at(body, i + 1), 0, last_point(thread))
}

// Whether the two threads of a claim differ.
#[tactic(auto, unfolding(crate::specs::Claim::different))]
fn are_different(body: &[u8]) -> bool
    ensures { result ≡ different body.now }
{
    byte_at(body, Claim::FIRST) != byte_at(body, Claim::SECOND)
}

// Whether every number of a claim is in its range. Line 0 passes here and fails when the claim is judged (code 26).
#[tactic(auto, unfolding(crate::specs::Claim::claimed))]
fn claim_fits(image: &Indexed, sizes: Sizes, body: &[u8]) -> bool
    ensures { result ≡ claimed sizes (bodies image.now) body.now }
{
    point_there(image, sizes, body, Claim::FIRST)
        && point_there(image, sizes, body, Claim::SECOND)
        && are_different(body)
        && u16_within(body, Claim::LINE, 0, usize::from(sizes.lines))
}

// Checks the length of a claim's body, then its numbers.
#[tactic(auto, unfolding(crate::specs::Claim::claim, image_frames::specs::Fault::unless))]
pub fn check_claim(image: &Indexed, sizes: Sizes, body: &[u8]) -> Result<(), Fault>
    ensures { result ≡ claim sizes (bodies image.now) body.now }
{
    if body.len() != Claim::SIZE {
        return Err(Fault::Body);
    }
    if !claim_fits(image, sizes, body) {
        return Err(Fault::Number);
    }
    Ok(())
}

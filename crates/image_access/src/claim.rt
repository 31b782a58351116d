// The claims of an image, by their numbers from 0.
ghost use Rattle.std.specs.Prelude.{◌≡◌, ◌<◌};
ghost use Rattle.image_frames.specs.Records.{bodies};
ghost use Rattle.image_meaning.specs.Image.{claim_body, claim_place};
ghost use Rattle.image_access.specs.AccessPlaces.{claimed_in};

use image_header::sizes::Sizes;
use image_index::indexed::Indexed;
use limits::read::{u8_at, u16_at};

// Two threads with a point each, and the line that proves that they are never at these points together.
#[derive(Clone, Copy)]
pub struct Claimed {
    pub thread: u8,
    pub point: u8,
    pub other: u8,
    pub other_point: u8,
    pub line: usize,
}

// The body of claim `i`.
// `i < 65536` stays a clause: a type of 16 bits would narrow the parameter of `claim_of` and `claim_place`.
#[tactic(auto, unfolding(image_meaning::specs::Image::claim_body))]
fn claim_body<'a>(image: &Indexed<'a, '_>, sizes: Sizes, i: usize) -> &'a [u8]
    requires { i < 65536 }
    ensures { result.now ≡ claim_body sizes (bodies image.now) i }
{
    image.body_of(
        usize::from(sizes.formulas)
            + usize::from(sizes.threads)
            + 1
            + usize::from(sizes.lines)
            + 2
            + i,
    )
}

// The claim in `body`.
#[tactic(auto, unfolding(crate::specs::AccessPlaces::claimed_in))]
fn read_claim(body: &[u8]) -> Claimed
    ensures { (result ≡ claimed_in body.now) × (result.line < 65536) }
{
    Claimed {
        thread: u8_at(body, 0),
        point: u8_at(body, 1),
        other: u8_at(body, 2),
        other_point: u8_at(body, 3),
        line: u16_at(body, 4),
    }
}

// Claim `i`, counted from 0.
pub fn claim_of(image: &Indexed, sizes: Sizes, i: usize) -> Claimed
    requires { i < 65536 }
    ensures { (result ≡ claimed_in (claim_body sizes (bodies image.now) i)) × (result.line < 65536) }
{
    read_claim(claim_body(image, sizes, i))
}

// The record number of claim `i`, counted from 1.
#[tactic(auto, unfolding(image_meaning::specs::Image::claim_place))]
pub fn claim_place(sizes: Sizes, i: usize) -> usize
    requires { i < 65536 }
    ensures { result ≡ claim_place sizes i }
{
    usize::from(sizes.formulas) + usize::from(sizes.threads) + usize::from(sizes.lines) + 4 + i
}

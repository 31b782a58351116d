// Stored trimmed images: an image and its trimmed image as the body, lengths and code as the tail.
ghost use Rattle.std.specs.Prelude.{◌≡◌};
ghost use Rattle.vectors.specs.TrimAnswer.{room};
ghost use Rattle.vectors_calls.specs.Judge.{Trimmed};

use limits::read::rest;
use trim::entry::trim_image;
use vectors::counters::{Counters, with_case};
use vectors::parts::{part_in, part_on};
use vectors::trim_answer::{Room, lent_at, same_answer};

// The buffer for the trimmed image before the call.
#[tactic(auto, unfolding(vectors::specs::TrimAnswer::room))]
fn blank_room() -> [u8; Room::BYTES]
    ensures { result ≡ room }
{
    [Room::BLANK; Room::BYTES]
}

// The counters with one trimmed image more, by its code, and whether it is the stored one.
// Counters and both parts of a case are passed one by one: a struct of them would be made and taken apart for each case.
#[tactic(auto, using(crate::proofs::Trimmed::with_trimmed_branches, limits::proofs::BranchTests::tests))]
pub fn with_trimmed(counters: Counters, body: &[u8], bytes: &[u8]) -> Counters
    ensures { Trimmed body.now bytes.now counters result }
{
    let mut lent = blank_room();
    let stored = rest(bytes, 4);
    let n = lent_at(stored);
    // No image has this length, so that a `written` which the call leaves as it was differs.
    let mut written = Room::BYTES;
    let code = trim_image(part_in(body, bytes, 0), &mut lent[..n], &mut written);
    let same = same_answer(code, written, &lent, stored, part_on(body, bytes, 1));
    with_case(counters, usize::from(code), same)
}

// Stored verdicts: an image as the body, the nine numbers of its verdict as the tail.
ghost use Rattle.std.specs.Prelude.{◌≡◌};
ghost use Rattle.vectors_calls.specs.Judge.{Checked};
ghost use Rattle.vectors_calls.specs.VerdictAnswer.{room, is_framed, same_record};

use checker::entry::check_image;
use limits::read::{part, rest, u16_at};
use vectors::counters::{Counters, with_case};
use vectors::room::holds;

// The buffer for the record of the verdict.
#[derive(Drop)]
struct Room;

impl Room {
    // The record has 22 bytes; those behind it must stay.
    const BYTES: usize = 26;

    // Every byte of the buffer before the call.
    const BLANK: u8 = 170;
}

// The buffer before the call.
#[tactic(auto, unfolding(crate::specs::VerdictAnswer::room))]
fn blank_room() -> [u8; Room::BYTES]
    ensures { result ≡ room }
{
    [Room::BLANK; Room::BYTES]
}

// Whether the buffer begins with the frame of a verdict: its length, 20, and its kind, 7.
#[tactic(auto, using(limits::proofs::BranchTests::tests), unfolding(crate::specs::VerdictAnswer::is_framed))]
fn is_framed(room: &[u8]) -> bool
    ensures { result ≡ is_framed room.now }
{
    holds(part(room, 0, 4), b"\x14\x00\x07\x00", 0)
}

// Whether the code is the stored one and the buffer holds the record of the stored numbers, and behind it what stood there before.
#[tactic(auto, using(limits::proofs::BranchTests::tests), unfolding(crate::specs::VerdictAnswer::same_record))]
fn same_record(code: u16, room: &[u8], bytes: &[u8]) -> bool
    ensures { result ≡ same_record code room.now bytes.now }
{
    usize::from(code) == u16_at(bytes, 0)
        && is_framed(room)
        && holds(rest(room, 4), bytes, Room::BLANK)
}

// The counters with one verdict more, by its code, and whether it is the stored one.
#[tactic(auto, using(crate::proofs::VerdictBranches::verdict_counted, limits::proofs::BranchTests::tests))]
pub fn with_verdict(counters: Counters, image: &[u8], bytes: &[u8]) -> Counters
    ensures { Checked image.now bytes.now counters result }
{
    let mut room = blank_room();
    let code = check_image(image, &mut room);
    let same = same_record(code, &room, bytes);
    with_case(counters, usize::from(code), same)
}

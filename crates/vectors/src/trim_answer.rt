// Stored trimmed images, and answers compared with them.
ghost use Rattle.std.specs.Prelude.{◌≡◌};
ghost use Rattle.vectors.specs.TrimAnswer.{lent_at, same_answer};

use crate::number::u32_at;
use crate::room::holds;
use limits::Limits;
use limits::read::u16_at;

// The layout of a stored answer.
#[derive(Drop)]
pub struct Stored;

impl Stored {
    // How many bytes of the buffer are passed, 32 bits; the code, 16 bits.
    pub const BYTES: usize = 6;
}

// The buffer for the trimmed image, of which a case passes the front.
#[derive(Drop)]
pub struct Room;

impl Room {
    // No case passes more: a byte more than an image may have.
    pub const BYTES: usize = Limits::IMAGE_BYTES + 1;

    // Every byte of the buffer before the call.
    pub const BLANK: u8 = 170;
}

// How many bytes of the buffer the case passes.
#[tactic(auto, unfolding(crate::specs::TrimAnswer::lent_at))]
pub fn lent_at(bytes: &[u8]) -> usize
    ensures { result ≡ lent_at bytes.now }
{
    u32_at(bytes, 0).min(Room::BYTES)
}

// Whether the code, the length written and the whole buffer are as stored; with an error `trimmed` is empty.
// What a call left is passed one by one, as the definition takes it: each kind of call leaves something else.
#[tactic(auto, using(limits::proofs::BranchTests::tests), unfolding(crate::specs::TrimAnswer::same_answer))]
pub fn same_answer(code: u16, written: usize, room: &[u8], bytes: &[u8], trimmed: &[u8]) -> bool
    ensures { result ≡ same_answer code written room.now bytes.now trimmed.now }
{
    usize::from(code) == u16_at(bytes, 4)
        && written == trimmed.len()
        && holds(room, trimmed, Room::BLANK)
}

// Stored bills, and answers compared with them.
ghost use Rattle.std.specs.Prelude.{◌≡◌};
ghost use Rattle.vectors.specs.BillAnswer.{tariff_at, billed_at, lent_at, numbers_at, same_answer};

use crate::number::u32_at;
use crate::room::{holds, written};
use bill_spec::numbers::Numbers;
use bill_spec::tariff::Tariff;
use limits::read::u16_at;

// The layout of a stored bill.
#[derive(Drop)]
pub struct Stored;

impl Stored {
    // Five prices of 16 bits; the number billed before and how many numbers of the buffer are passed, 32 bits each; the code, 16 bits; the
    // answer, six numbers of 32 bits.
    pub const BYTES: usize = 44;
}

// The buffer for a bill's numbers, of which a case passes the front.
#[derive(Drop)]
pub struct Room;

impl Room {
    // No case passes more.
    pub const NUMBERS: usize = 24;

    // Every number of the buffer before the call.
    pub const BLANK: u32 = 2863311530;
}

// The stored tariff.
#[tactic(auto, using(limits::proofs::BranchTests::tests), unfolding(crate::specs::BillAnswer::tariff_at))]
pub fn tariff_at(bytes: &[u8]) -> Tariff
    ensures { result ≡ tariff_at bytes.now }
{
    Tariff {
        start: u16_at(bytes, 0) as u16,
        step: u16_at(bytes, 2) as u16,
        taken: u16_at(bytes, 4) as u16,
        interference: u16_at(bytes, 6) as u16,
        least: u16_at(bytes, 8) as u16,
    }
}

// The stored number of images billed before.
#[tactic(auto, unfolding(crate::specs::BillAnswer::billed_at))]
pub fn billed_at(bytes: &[u8]) -> u32
    ensures { result ≡ billed_at bytes.now }
{
    u32_at(bytes, 10) as u32
}

// How many numbers of the buffer the case passes.
#[tactic(auto, unfolding(crate::specs::BillAnswer::lent_at))]
pub fn lent_at(bytes: &[u8]) -> usize
    ensures { result ≡ lent_at bytes.now }
{
    u32_at(bytes, 14).min(Room::NUMBERS)
}

// The stored answer.
#[tactic(auto, using(limits::proofs::BranchTests::tests), unfolding(crate::specs::BillAnswer::numbers_at))]
fn numbers_at(bytes: &[u8]) -> [u32; Numbers::SIZE]
    ensures { result ≡ numbers_at bytes.now }
{
    [
        u32_at(bytes, 20) as u32,
        u32_at(bytes, 24) as u32,
        u32_at(bytes, 28) as u32,
        u32_at(bytes, 32) as u32,
        u32_at(bytes, 36) as u32,
        u32_at(bytes, 40) as u32,
    ]
}

// Whether the code and the whole buffer are as stored; with code 1 nothing is written.
#[tactic(auto, using(limits::proofs::BranchTests::tests), unfolding(crate::specs::BillAnswer::same_answer))]
pub fn same_answer(code: u16, room: &[u32], bytes: &[u8]) -> bool
    ensures { result ≡ same_answer code room.now bytes.now }
{
    usize::from(code) == u16_at(bytes, 18)
        && holds(room, written(code, &numbers_at(bytes)), Room::BLANK)
}

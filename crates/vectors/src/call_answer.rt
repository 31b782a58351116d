// Stored answers of replays, code and numbers, and answers compared with them.
ghost use Rattle.std.specs.Prelude.{◌≡◌};
ghost use Rattle.vectors.specs.CallAnswer.{blank_table, blank_numbers, lent_at, numbers_at, same_answer};

use crate::number::u32_at;
use crate::room::{holds, written};
use limits::read::u16_at;
use replay_machine::answer::Answer;

// The table of writes and the buffer for the numbers, of which a case passes the front.
#[derive(Drop)]
pub struct Room;

impl Room {
    // No case passes more bytes of table.
    pub const BYTES: usize = 736;

    // No case passes more numbers.
    pub const NUMBERS: usize = 32;

    // Every byte of the table before the call.
    pub const BLANK: u8 = 170;

    // Every number of the buffer before the call.
    pub const EMPTY: usize = 2863311530;
}

// The table before the call.
#[tactic(auto, unfolding(crate::specs::CallAnswer::blank_table))]
pub fn blank_table() -> [u8; Room::BYTES]
    ensures { result ≡ blank_table }
{
    [Room::BLANK; Room::BYTES]
}

// The buffer for the numbers before the call.
#[tactic(auto, unfolding(crate::specs::CallAnswer::blank_numbers))]
pub fn blank_numbers() -> [usize; Room::NUMBERS]
    ensures { result ≡ blank_numbers }
{
    [Room::EMPTY; Room::NUMBERS]
}

// The number stored at `at`, at most `most`: how many bytes or numbers the case passes.
#[tactic(auto, unfolding(crate::specs::CallAnswer::lent_at))]
pub fn lent_at(bytes: &[u8], at: usize, most: usize) -> usize
    ensures { result ≡ lent_at bytes.now at most }
{
    u32_at(bytes, at).min(most)
}

// The stored numbers: steps, points, registers.
#[tactic(auto, using(crate::proofs::StoredNumbers::stored))]
fn numbers_at(bytes: &[u8]) -> [usize; Answer::SIZE]
    ensures { result ≡ numbers_at bytes.now }
{
    let mut numbers = [0; Answer::SIZE];
    for i in 0..Answer::SIZE {
        numbers[i] = u32_at(bytes, 2 + 4 * i);
    }
    numbers
}

// Whether the code, the whole table and all of the numbers are as stored; `entries` is the front of the table.
#[tactic(auto, using(limits::proofs::BranchTests::tests), unfolding(crate::specs::CallAnswer::same_answer))]
pub fn same_answer(code: u16, table: &[u8], numbers: &[usize], bytes: &[u8], entries: &[u8]) -> bool
    ensures { result ≡ same_answer code table.now numbers.now bytes.now entries.now }
{
    usize::from(code) == u16_at(bytes, 0)
        && holds(table, entries, Room::BLANK)
        && holds(numbers, written(code, &numbers_at(bytes)), Room::EMPTY)
}

// What a turn left, compared with what is stored of it.
ghost use Rattle.std.specs.Prelude.{◌≡◌};
ghost use Rattle.vectors.specs.TurnSame.{same_longs_by, same_numbers_by, same_service, same_bytes, same_written, same_verdict, same_trimmed, same_bill, same_replay};

use crate::number::{Wide, u32_at};
use crate::room::holds;
use crate::turn::Room;
use limits::read::{part, rest, u16_at};

// Whether these numbers are stored in front of `bytes`, 32 bits each.
#[tactic(auto, using(crate::proofs::LongsSame::longs))]
fn same_longs<T: Wide>(numbers: &[T], bytes: &[u8]) -> bool
    ensures { result ≡ same_longs_by T.number numbers.now bytes.now }
{
    let mut stored = bytes;
    for n in numbers {
        if n.wide() != u32_at(stored, 0) {
            return false;
        }
        stored = rest(stored, 4);
    }
    true
}

// Whether the code and the whole service are as stored.
#[tactic(auto, using(limits::proofs::BranchTests::tests), unfolding(crate::specs::TurnSame::same_service))]
pub fn same_service(code: u16, service: &[u32], bytes: &[u8]) -> bool
    ensures { result ≡ same_service code service.now bytes.now }
{
    usize::from(code) == u16_at(bytes, 44) && same_longs(service, rest(bytes, 50))
}

// Whether the whole buffer of bytes, of which the front was passed, is as stored.
#[tactic(auto, using(limits::proofs::BranchTests::tests), unfolding(crate::specs::TurnSame::same_bytes))]
fn same_bytes(room: &[u8], bytes: &[u8]) -> bool
    ensures { result ≡ same_bytes room.now bytes.now }
{
    holds(room, part(bytes, 210, Room::BYTES), Room::BLANK)
}

// Whether the whole buffer of numbers, of which the front was passed, is as stored.
#[tactic(auto, using(limits::proofs::BranchTests::tests), unfolding(crate::specs::TurnSame::same_numbers_by))]
fn same_numbers<T: Wide>(room: &[T], bytes: &[u8]) -> bool
    ensures { result ≡ same_numbers_by T.number room.now bytes.now }
{
    same_longs(room, rest(bytes, 114))
}

// Whether the length written and the whole buffer of bytes are as stored.
// What a call left is passed one by one, as the definitions take it: each kind of call leaves something else.
#[tactic(auto, using(limits::proofs::BranchTests::tests), unfolding(crate::specs::TurnSame::same_written))]
fn same_written(written: usize, room: &[u8], bytes: &[u8]) -> bool
    ensures { result ≡ same_written written room.now bytes.now }
{
    written == u32_at(bytes, 46) && same_bytes(room, bytes)
}

// Whether a check left what is stored.
#[tactic(auto, using(limits::proofs::BranchTests::tests), unfolding(crate::specs::TurnSame::same_verdict))]
pub fn same_verdict(code: u16, service: &[u32], room: &[u8], bytes: &[u8]) -> bool
    ensures { result ≡ same_verdict code service.now room.now bytes.now }
{
    same_service(code, service, bytes) && same_bytes(room, bytes)
}

// Whether trimming left what is stored.
#[tactic(auto, using(limits::proofs::BranchTests::tests), unfolding(crate::specs::TurnSame::same_trimmed))]
pub fn same_trimmed(code: u16, service: &[u32], written: usize, room: &[u8], bytes: &[u8]) -> bool
    ensures { result ≡ same_trimmed code service.now written room.now bytes.now }
{
    same_service(code, service, bytes) && same_written(written, room, bytes)
}

// Whether a bill left what is stored.
#[tactic(auto, using(limits::proofs::BranchTests::tests), unfolding(crate::specs::TurnSame::same_bill))]
pub fn same_bill(code: u16, service: &[u32], room: &[u32], bytes: &[u8]) -> bool
    ensures { result ≡ same_bill code service.now room.now bytes.now }
{
    same_service(code, service, bytes) && same_numbers(room, bytes)
}

// Whether a replay left what is stored.
#[tactic(auto, using(limits::proofs::BranchTests::tests), unfolding(crate::specs::TurnSame::same_replay))]
pub fn same_replay(code: u16, service: &[u32], table: &[u8], room: &[usize], bytes: &[u8]) -> bool
    ensures { result ≡ same_replay code service.now table.now room.now bytes.now }
{
    same_service(code, service, bytes) && same_bytes(table, bytes) && same_numbers(room, bytes)
}

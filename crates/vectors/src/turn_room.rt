// The contents of a call's buffers before it.
ghost use Rattle.std.specs.Prelude.{◌≡◌};
ghost use Rattle.vectors.specs.Turn.{bytes, numbers};

use crate::turn::Room;

// The buffer of bytes before the call.
#[tactic(auto, unfolding(crate::specs::Turn::bytes))]
pub fn blank_bytes() -> [u8; Room::BYTES]
    ensures { result ≡ bytes }
{
    [Room::BLANK; Room::BYTES]
}

// The buffer of 32-bit numbers before the call.
#[tactic(auto, unfolding(crate::specs::Turn::numbers))]
pub fn blank_numbers() -> [u32; Room::NUMBERS]
    ensures { result ≡ numbers }
{
    [Room::BLANK_NUMBER; Room::NUMBERS]
}

// The buffer of 64-bit numbers before the call.
#[tactic(auto, unfolding(crate::specs::Turn::numbers))]
pub fn blank_wide() -> [usize; Room::NUMBERS]
    ensures { result ≡ numbers }
{
    [Room::BLANK_WIDE; Room::NUMBERS]
}

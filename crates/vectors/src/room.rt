// A buffer compared with what it should hold after a call: `front`, and behind it `rest` everywhere, as before the call.
ghost use Rattle.std.specs.Prelude.{◌≡◌};
ghost use Rattle.vectors.specs.Room.{holds_by, written};

use verdict_record::output::Output;

// Whether a buffer holds `front`, and behind it `rest` everywhere.
pub fn holds<T: Copy + PartialEq>(room: &[T], front: &[T], rest: T) -> bool
    ensures { result ≡ holds_by T.eq room.now front.now rest }
{
    let Some(behind) = room.strip_prefix(front) else {
        return false;
    };
    behind.iter().all(|&x| x == rest)
}

// What a call with this code writes of its numbers: with code 1 none.
#[tactic(auto, using(limits::proofs::BranchTests::tests), unfolding(crate::specs::Room::written))]
pub fn written<T>(code: u16, numbers: &[T]) -> &[T]
    ensures { result.now ≡ written code numbers.now }
{
    if code == Output::SHORT {
        return &numbers[..0];
    }
    numbers
}

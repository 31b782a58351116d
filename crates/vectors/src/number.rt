// Numbers of 32 bits.
ghost use Rattle.std.specs.Prelude.{◌≡◌, ℕ, ◌^◌, ◌<◌, drop};
ghost use Rattle.vectors.specs.Number.{long};

use limits::read::u16_at;

// Half of a 32-bit number.
#[derive(Drop)]
struct Half;

impl Half {
    // How many values a half has.
    pub const NUMBERS: usize = 65536;
}

// The 32-bit number at a position, its low half first.
#[tactic(auto, using(crate::proofs::NumberBranches::u32_at_branches, limits::proofs::BranchTests::tests))]
pub fn u32_at(bytes: &[u8], at: usize) -> usize
    ensures { (result ≡ long (drop at bytes.now)) × (result < 2 ^ 32) }
{
    if bytes.len() <= at {
        return 0;
    }
    u16_at(bytes, at) + Half::NUMBERS * u16_at(bytes, at + 2)
}

// A number of a call's buffer: of 32 bits in a service or a bill, of 64 bits in the answer of a replay.
pub trait Wide: Copy {
    ghost number: { Self → ℕ };

    fn wide(self) -> usize
        ensures { result ≡ number self };
}

impl Wide for u32 {
    ghost number = { λ n. n };

    fn wide(self) -> usize {
        self as usize
    }
}

impl Wide for usize {
    ghost number = { λ n. n };

    fn wide(self) -> usize {
        self
    }
}

// Whether numbers in bytes are in a range, both ends included.
ghost use Rattle.std.specs.Prelude.{◌≡◌, get_or, drop};
ghost use Rattle.limits.specs.Numbers.{le16, numbers, within, every};

use crate::read::{byte_at, number_at, u16_at};

// Whether `number` is from `low` to `high`.
#[tactic(auto, using(crate::proofs::BranchTests::tests), unfolding(crate::specs::Numbers::within))]
pub fn in_range(number: usize, low: usize, high: usize) -> bool
    ensures { result ≡ within low high number }
{
    low <= number && number <= high
}

// Whether the byte at `at` is from `low` to `high`.
pub fn byte_within(bytes: &[u8], at: usize, low: usize, high: usize) -> bool
    ensures { result ≡ within low high (get_or bytes.now at 0) }
{
    in_range(byte_at(bytes, at), low, high)
}

// Whether the 16-bit number at `at` is from `low` to `high`.
pub fn u16_within(bytes: &[u8], at: usize, low: usize, high: usize) -> bool
    ensures { result ≡ within low high (le16 (drop at bytes.now)) }
{
    in_range(u16_at(bytes, at), low, high)
}

// Whether every byte is from `low` to `high`.
pub fn bytes_within(bytes: &[u8], low: usize, high: usize) -> bool
    ensures { result ≡ every (within low high) bytes.now }
{
    bytes.iter().all(|x| in_range(usize::from(*x), low, high))
}

// Whether each of the first `n` 16-bit numbers is from `low` to `high`.
pub fn numbers_within(bytes: &[u8], n: usize, low: usize, high: usize) -> bool
    ensures { result ≡ every (within low high) (numbers n bytes.now) }
{
    (0..n).all(|i| in_range(number_at(bytes, n, i), low, high))
}

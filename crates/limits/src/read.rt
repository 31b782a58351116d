// Reads of the numbers in a slice of bytes.
//
// Each read is total: a byte past the end counts as 0, and a part ends at the latest where the bytes end. So each function equals its
// definition at every argument, and its callers need no case for a short record.
ghost use Rattle.std.specs.Prelude.{◌≡◌, ◌<◌, get_or, take, drop};
ghost use Rattle.limits.specs.Numbers.{le16, numbers, nth};

// A byte widened to usize, so that sums of it do not overflow.
fn wide(byte: u8) -> usize
    ensures { (result ≡ byte) × (result < 256) }
{
    byte as usize
}

// The byte at position `at`, from 0; 0 past the end.
pub fn u8_at(bytes: &[u8], at: usize) -> u8
    ensures { result ≡ get_or bytes.now at 0 }
{
    if bytes.len() <= at {
        return 0;
    }
    bytes[at]
}

// The byte at a position, widened to usize.
pub fn byte_at(bytes: &[u8], at: usize) -> usize
    ensures { (result ≡ get_or bytes.now at 0) × (result < 256) }
{
    wide(u8_at(bytes, at))
}

// The 16-bit little-endian number at position `at`.
#[tactic(auto, using(crate::proofs::Numbers::read_branches, crate::proofs::BranchTests::tests))]
pub fn u16_at(bytes: &[u8], at: usize) -> usize
    ensures { (result ≡ le16 (drop at bytes.now)) × (result < 65536) }
{
    if bytes.len() <= at {
        return 0;
    }
    byte_at(bytes, at) + 256 * byte_at(bytes, at + 1)
}

// The `n` bytes from position `from` on; fewer where the bytes end before.
pub fn part(bytes: &[u8], from: usize, n: usize) -> &[u8]
    ensures { result.now ≡ take n (drop from bytes.now) }
{
    if bytes.len() <= from {
        return &bytes[0..0];
    }
    if bytes.len() - from <= n {
        return &bytes[from..];
    }
    let end = from + n;
    &bytes[from..end]
}

// All bytes from position `from` on.
pub fn rest(bytes: &[u8], from: usize) -> &[u8]
    ensures { result.now ≡ drop from bytes.now }
{
    part(bytes, from, bytes.len())
}

// Byte number `i`, counted from 1; 0 for number 0 and past the end.
#[tactic(auto, using(crate::proofs::Numbers::read_branches, crate::proofs::BranchTests::tests))]
pub fn nth_byte(bytes: &[u8], i: usize) -> usize
    ensures { (result ≡ nth bytes.now i 0) × (result < 256) }
{
    if i == 0 {
        return 0;
    }
    byte_at(bytes, i - 1)
}

// The number at index `i`, from 0, of a list of `n` 16-bit numbers; 0 outside the list.
#[tactic(auto, using(crate::proofs::Numbers::number_at_branches, crate::proofs::BranchTests::tests))]
pub fn number_at(bytes: &[u8], n: usize, i: usize) -> usize
    ensures { (result ≡ get_or (numbers n bytes.now) i 0) × (result < 65536) }
{
    if n <= i || bytes.len() <= i {
        return 0;
    }
    u16_at(bytes, 2 * i)
}

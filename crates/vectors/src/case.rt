// Cases read in order.
ghost use Rattle.std.specs.Prelude.{◌≡◌, IfOk, IfSome};
ghost use Rattle.std.specs.Counts.{IsPrefixLen};
ghost use Rattle.vectors.specs.End.{part_read};

use crate::end::{Fault, end_after};
use crate::number::u32_at;
use input::{Filled, fill};
use std::io::Read;

// The length of a body, in front of it.
#[derive(Drop)]
struct Size;

impl Size {
    pub const BYTES: usize = 4;
}

// A part of a case that has begun, by how it was filled.
#[tactic(auto, unfolding(crate::specs::End::part_read))]
fn part_read(part: Filled) -> Result<(), Fault>
    ensures { result ≡ part_read part }
{
    match part {
        Filled::Full => Ok(()),
        Filled::Ended(_) => Err(Fault::Cut),
    }
}

// Reads a body of `n` bytes to the start of `space`, and its tail.
fn read_body<R: Read>(
    reader: &mut R,
    n: usize,
    space: &mut [u8],
    tail: &mut [u8],
) -> Result<Option<usize>, Fault>
    ensures { IfOk result (λ next. IfSome next (λ n. IsPrefixLen n space.new)) }
{
    if space.len() < n {
        return Err(Fault::Large);
    }
    part_read(fill(reader, &mut space[..n])?)?;
    part_read(fill(reader, tail)?)?;
    Ok(Some(n))
}

// Reads the next case, if there is one: its body to the start of `space`, whose length it returns, and its tail to all of `tail`.
pub fn read_case<R: Read>(
    reader: &mut R,
    space: &mut [u8],
    tail: &mut [u8],
) -> Result<Option<usize>, Fault>
    ensures { IfOk result (λ next. IfSome next (λ n. IsPrefixLen n space.new)) }
{
    let mut size = [0u8; Size::BYTES];
    match fill(reader, &mut size)? {
        Filled::Full => read_body(reader, u32_at(&size, 0), space, tail),
        Filled::Ended(n) => {
            end_after(n)?;
            Ok(None)
        }
    }
}

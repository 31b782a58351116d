// The parts of a case's body, one after the other. Their lengths stand at the front of `bytes`, 32 bits each; the last part may be the
// rest of the body.
ghost use Rattle.std.specs.Prelude.{◌≡◌};
ghost use Rattle.vectors.specs.Parts.{part_on, part_in};

use crate::number::u32_at;
use limits::read::{part, rest};

// The body from part `number` on, counted from 0.
#[tactic(auto, using(crate::proofs::PartSteps::parts))]
pub fn part_on<'a>(body: &'a [u8], bytes: &[u8], number: u8) -> &'a [u8]
    ensures { result.now ≡ part_on number bytes.now body.now }
{
    let mut left = body;
    for k in 0..number {
        left = rest(left, u32_at(bytes, 4 * usize::from(k)));
    }
    left
}

// Part `number`, counted from 0.
#[tactic(auto, using(limits::proofs::BranchTests::tests), unfolding(crate::specs::Parts::part_in))]
pub fn part_in<'a>(body: &'a [u8], bytes: &[u8], number: u8) -> &'a [u8]
    ensures { result.now ≡ part_in number bytes.now body.now }
{
    part(
        part_on(body, bytes, number),
        0,
        u32_at(bytes, 4 * usize::from(number)),
    )
}

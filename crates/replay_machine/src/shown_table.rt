// The table that the caller sees: the writes word by word, in modification order.
ghost use Rattle.std.specs.Prelude.{◌≡◌, cond, ltb};
ghost use Rattle.replay_memory.specs.Write.{start_write};
ghost use Rattle.replay_machine.specs.ShownTable.{packed};

use crate::pick::total_of;
use replay_memory::memory::Memory;
use replay_memory::write::{Write, start_write};

// The first 64 entries; after the last write there are start writes of 0.
#[derive(Clone, Copy)]
pub struct Packed {
    pub writes: [Write; 64],
}

// The write of entry `i`, of `n` entries; after the last a start write of 0.
fn shown(write: Write, i: usize, n: usize) -> Write
    ensures { result ≡ cond (ltb i n) write (start_write 0) }
{
    if i < n { write } else { start_write(0) }
}

// The table for the first `words` words of the memory.
#[tactic(auto, using(crate::proofs::ShownTableBranches::pack_branches, limits::proofs::BranchTests::tests))]
pub fn pack(memory: Memory, words: u8) -> Packed
    ensures { result ≡ packed memory words }
{
    let total = total_of(memory, words);
    let none = start_write(0);
    let mut writes = [none; 64];
    for e in 0..64 {
        writes[e] = shown(memory.writes[e], e, total);
    }
    Packed { writes }
}

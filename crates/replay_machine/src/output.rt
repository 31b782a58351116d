// What a replay shows: the answer, and the writes for the caller's table.
ghost use Rattle.std.specs.Prelude.{◌≡◌, ◌≤◌, min, length};
ghost use Rattle.replay_machine.specs.Replayed.{told};
ghost use Rattle.replay_machine.specs.OutputTable.{shown_of, shown_by};

use crate::answer::{Answer, answer_of};
use crate::pick::total_of;
use crate::replayed::{Replayed, Table};
use crate::shown_table::pack;
use replay_memory::write::Write;

// An array with a count: memory is fixed, with no heap.
// The answer, and the writes for the table: the first `count` of `writes`.
#[derive(Clone, Copy)]
pub struct Shown {
    pub answer: Answer,
    pub count: usize,
    pub writes: [Write; Table::MOST],
}

// How many entries are used: no more than there are writes, entries in the caller's table (`lent`), or 64.
fn least(writes: usize, lent: usize) -> usize
    ensures { result ≡ min writes (min lent 64) }
{
    writes.min(lent).min(Table::MOST)
}

// How many writes go to a table of `lent` entries; none where the table stays as it is.
#[tactic(auto, using(crate::proofs::OutputBranches::shown_ways), unfolding(crate::specs::Replayed::told))]
fn count_of(replayed: Replayed, lent: usize) -> usize
    ensures { (result ≡ length (shown_of (told replayed) lent)) × (result ≤ min lent 64) }
{
    if replayed.held {
        let memory = replayed.machine.memory;
        least(total_of(memory, replayed.words), lent)
    } else {
        0
    }
}

// What is shown of a replay to a caller whose table has `lent` entries.
#[tactic(auto, using(crate::proofs::OutputBranches::shown_ways), unfolding(crate::specs::Replayed::told))]
pub fn shown_by(replayed: Replayed, lent: usize) -> Shown
    ensures { (result ≡ shown_by (told replayed) lent) × ((result.count ≤ min lent 64) × (length result.writes ≡ 64)) }
{
    let memory = replayed.machine.memory;
    let writes = pack(memory, replayed.words).writes;
    Shown {
        answer: answer_of(replayed),
        count: count_of(replayed, lent),
        writes,
    }
}

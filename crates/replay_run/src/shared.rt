// What a step does to shared words and views, from the write that it picks.
ghost use Rattle.std.specs.Prelude.{◌≡◌};
ghost use Rattle.replay_run.specs.Shared.{fetch_added_by, change_of};

use image_header::instruction::Instruction;
use replay_machine::effect::Effect;
use replay_memory::memory::MemoryShape;
use replay_memory::write::Write;
use replay_table::access::{Change, load, store, swap, unchanged};
use tables_columns::combine::sum_of;

// `effect`, `t` and `position` come from the image and from two bytes of the trace, so a struct of them would be made for a single call.
// A swap that stores the picked value plus the formula's, modulo the range.
#[tactic(auto, using(crate::proofs::TurnBranches::add_made, limits::proofs::BranchTests::tests))]
fn fetch_add(
    shape: MemoryShape,
    words: u8,
    range: u8,
    picked: Write,
    effect: Effect,
    t: u8,
    position: u8,
) -> Change
    ensures { result ≡ fetch_added_by shape words range picked effect t position }
{
    let sum = sum_of(range, picked.value, effect.value);
    swap(shape, words, picked, effect.word, sum, t, position)
}

// Operation numbers are associated constants (docs/DECISIONS.md, "Forms named for a place"), so this is a match on them.
// What a step of thread `t` at `position` does; the first `words` words have entries in the table.
#[tactic(auto, using(limits::proofs::BranchTests::tests), unfolding(crate::specs::Shared::change_of))]
pub fn change_by(
    shape: MemoryShape,
    words: u8,
    range: u8,
    picked: Write,
    effect: Effect,
    t: u8,
    position: u8,
) -> Change
    ensures { result ≡ change_of shape words range picked effect t position }
{
    match effect.operation {
        Instruction::LOAD => load(shape, picked, false, t, effect.word, position),
        Instruction::ACQUIRE => load(shape, picked, true, t, effect.word, position),
        Instruction::STORE | Instruction::PAIR_STORE => {
            store(shape, words, false, effect.word, effect.value, t, position)
        }
        Instruction::RELEASE | Instruction::PAIR_RELEASE => {
            store(shape, words, true, effect.word, effect.value, t, position)
        }
        Instruction::SWAP | Instruction::EXCHANGE | Instruction::PAIR_SWAP => {
            swap(shape, words, picked, effect.word, effect.value, t, position)
        }
        Instruction::FETCH_ADD => fetch_add(shape, words, range, picked, effect, t, position),
        _ => unchanged(shape),
    }
}

// What a step does to shared words and views, and which positions it may pick.
ghost use Rattle.std.specs.Prelude.{◌≡◌};
ghost use Rattle.replay_memory.specs.Memory.{memory_of};
ghost use Rattle.replay_machine.specs.Shared.{reachable_by, fetch_added, memory_after};
ghost use Rattle.replay_machine.specs.Pick.{uncovered_by, may_pick_by};

use crate::effect::Effect;
use image_header::instruction::Instruction;
use replay_memory::access::{load, store, swap};
use replay_memory::memory::{MemoryShape, size_in, view_of, write_at};
use replay_memory::view::position_in;
use replay_memory::write::Write;
use replay_memory::write_table::Places;
use tables_columns::combine::sum_of;

// The position is in the row of word `x`, at or after the one that the view of thread `t` names.
#[tactic(auto, using(crate::proofs::EffectBranches::is_reachable_branches, limits::proofs::BranchTests::tests))]
pub fn is_reachable(shape: MemoryShape, t: u8, x: u8, position: u8) -> bool
    ensures { result ≡ reachable_by shape t x position }
{
    position < size_in(&shape.sizes, x) && position_in(view_of(shape, t), x) <= position
}

// The position is reachable and its write is not covered: a new write may be put behind it.
#[tactic(auto, using(limits::proofs::BranchTests::tests), unfolding(crate::specs::Pick::uncovered_by))]
fn is_uncovered(shape: MemoryShape, picked: Write, t: u8, x: u8, position: u8) -> bool
    ensures { result ≡ uncovered_by shape picked t x position }
{
    is_reachable(shape, t, x, position) && !picked.covered
}

// `effect`, `t` and `position` come from the image and from two bytes of the trace, so a struct of them would be made for a single call.
// Whether thread `t` may pick `position`: a load any reachable write, a store or swap an uncovered one; other instructions have position 0.
#[tactic(auto, using(limits::proofs::BranchTests::tests), unfolding(crate::specs::Pick::may_pick_by))]
pub fn may_pick(shape: MemoryShape, picked: Write, effect: Effect, t: u8, position: u8) -> bool
    ensures { result ≡ may_pick_by shape picked effect t position }
{
    match effect.operation {
        Instruction::ASSIGN | Instruction::BRANCH | Instruction::ASSIGN_TWO => position == 0,
        Instruction::LOAD | Instruction::ACQUIRE => {
            is_reachable(shape, t, effect.word, position)
        }
        _ => is_uncovered(shape, picked, t, effect.word, position),
    }
}

// A swap that stores the old value plus the formula's, modulo the range.
#[tactic(auto, using(crate::proofs::EffectBranches::add_made, limits::proofs::BranchTests::tests))]
fn fetch_add(
    shape: MemoryShape,
    range: u8,
    effect: Effect,
    t: u8,
    position: u8,
    table: &mut [Write; Places::COUNT],
) -> MemoryShape
    ensures { memory_of result table.new ≡ fetch_added (memory_of shape table.old) range effect t position }
{
    let sum = sum_of(
        range,
        write_at(table, shape, effect.word, position).value,
        effect.value,
    );
    swap(shape, effect.word, sum, t, position, table)
}

// Operation numbers are associated constants (docs/DECISIONS.md, "Forms named for a place"), so this is a match on them.
// The memory after a step of thread `t` at `position`; the writes are changed in `table`.
#[tactic(auto, using(limits::proofs::BranchTests::tests), unfolding(crate::specs::Shared::memory_after))]
pub fn memory_after(
    shape: MemoryShape,
    range: u8,
    effect: Effect,
    t: u8,
    position: u8,
    table: &mut [Write; Places::COUNT],
) -> MemoryShape
    ensures { memory_of result table.new ≡ memory_after (memory_of shape table.old) range effect t position }
{
    match effect.operation {
        Instruction::LOAD => load(table, shape, false, t, effect.word, position),
        Instruction::ACQUIRE => load(table, shape, true, t, effect.word, position),
        Instruction::STORE | Instruction::PAIR_STORE => {
            store(shape, false, effect.word, effect.value, t, position, table)
        }
        Instruction::RELEASE | Instruction::PAIR_RELEASE => {
            store(shape, true, effect.word, effect.value, t, position, table)
        }
        Instruction::SWAP | Instruction::EXCHANGE | Instruction::PAIR_SWAP => {
            swap(shape, effect.word, effect.value, t, position, table)
        }
        Instruction::FETCH_ADD => fetch_add(shape, range, effect, t, position, table),
        _ => shape,
    }
}

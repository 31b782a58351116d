// The state of the machine and a step of it, for a caller that keeps the table of writes as bytes, as a device does.
ghost use Rattle.std.specs.Prelude.{◌≡◌, length, OnErr};
ghost use Rattle.replay_memory.specs.Bytes.{memory_in};
ghost use Rattle.replay_machine.specs.Refusal.{code_of, pick_refusal};
ghost use Rattle.replay_machine.specs.Shared.{may_pick, memory_after};
ghost use Rattle.replay_machine.specs.State.{performed};
ghost use Rattle.replay_machine.specs.Step.{stepped};
ghost use Rattle.replay_machine.specs.Bytes.{machine_in, taken_in};

use crate::effect::Effect;
use crate::pick::Refusal;
use crate::state::{Machine, Threads};
use crate::{pick, shared, state, step};
use image_header::sizes::Sizes;
use image_index::indexed::Indexed;
use replay_memory::bytes::{TableBytes, lay_out, writes_in};
use replay_memory::bytes_access::write_at;
use replay_memory::memory::MemoryShape;

// `effect`, `t` and `position` come from the image and from two bytes of the trace, so a struct of them would be made for a single call.
// Whether thread `t` may pick `position`: a load any reachable write, a store or swap an uncovered one; other instructions have position 0.
#[tactic(auto, using(crate::proofs::StepBranches::pick_by_memory))]
pub fn may_pick(
    table: &[u8; TableBytes::COUNT],
    shape: MemoryShape,
    effect: Effect,
    t: u8,
    position: u8,
) -> bool
    ensures { result ≡ may_pick (memory_in shape table.now) effect t position }
{
    let picked = write_at(table, shape, effect.word, position);
    shared::may_pick(shape, picked, effect, t, position)
}

// Whether thread `t` may take a step with this effect at `position`. `room` is how many writes there may be.
#[tactic(auto, using(crate::proofs::StepBranches::pick_by_memory))]
pub fn pick_refusal(
    table: &[u8; TableBytes::COUNT],
    shape: MemoryShape,
    words: u8,
    room: usize,
    effect: Effect,
    t: u8,
    position: u8,
) -> Result<(), Refusal>
    ensures { code_of result ≡ pick_refusal (memory_in shape table.now) words room effect t position }
{
    let picked = write_at(table, shape, effect.word, position);
    pick::pick_refusal(shape, picked, words, room, effect, t, position)
}

// The memory after a step of thread `t` at `position`; the writes are changed in `table`.
pub fn memory_after(
    shape: MemoryShape,
    range: u8,
    effect: Effect,
    t: u8,
    position: u8,
    table: &mut [u8; TableBytes::COUNT],
) -> MemoryShape
    ensures table_after { memory_in result table.new ≡ memory_after (memory_in shape table.old) range effect t position }
    ensures table_len { length table.new ≡ 792 }
{
    let mut writes = writes_in(table);
    let shape = shared::memory_after(shape, range, effect, t, position, &mut writes);
    lay_out(&writes, table);
    shape
}

// The state with its writes, read from the table.
pub fn machine_of(threads: Threads, table: &[u8; TableBytes::COUNT]) -> Machine
    ensures { result ≡ machine_in threads table.now }
{
    state::machine_of(threads, &writes_in(table))
}

// The state after a step of thread `t` with this effect at `position`; the writes are changed in `table`.
pub fn perform(
    threads: Threads,
    range: u8,
    effect: Effect,
    t: u8,
    position: u8,
    table: &mut [u8; TableBytes::COUNT],
) -> Threads
    ensures table_after { machine_in result table.new ≡ performed (machine_in threads table.old) range effect t position }
    ensures table_len { length table.new ≡ 792 }
{
    let mut writes = writes_in(table);
    let threads = state::perform(threads, range, effect, t, position, &mut writes);
    lay_out(&writes, table);
    threads
}

// A step of thread `t`, counted from 1, at `position`; `room` is how many writes there may be. Where it is refused the table stays.
#[tactic(auto, using(crate::proofs::StepBranches::step_refused, limits::proofs::BranchTests::tests))]
pub fn step(
    image: &Indexed,
    sizes: Sizes,
    room: usize,
    threads: Threads,
    t: u8,
    position: u8,
    table: &mut [u8; TableBytes::COUNT],
) -> Result<Threads, Refusal>
    ensures table_after { taken_in result threads table.new ≡ stepped image.now sizes room (machine_in threads table.old) t position }
    ensures table_len { length table.new ≡ 792 }
    ensures err { OnErr result (table.new ≡ table.old) }
{
    let mut writes = writes_in(table);
    let threads = step::step(image, sizes, room, threads, t, position, &mut writes)?;
    lay_out(&writes, table);
    Ok(threads)
}

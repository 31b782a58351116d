// A state of the machine: shared memory and views, registers, points. Threads count from 0 here.
ghost use Rattle.std.specs.Prelude.{◌≡◌, ◌%◌, get_or};
ghost use Rattle.replay_machine.specs.State.{performed, machine_of, threads_of};

use crate::effect::Effect;
use crate::locals::{Registers, point_after, registers_after};
use crate::shared::memory_after;
use replay_memory::memory::{Memory, MemoryShape, memory_of, write_at};
use replay_memory::write::Write;
use replay_memory::write_table::Places;

// A state as a value.
#[derive(Clone, Copy)]
pub struct Machine {
    pub memory: Memory,
    pub registers: Registers,
    pub points: [u8; 4],
}

// A state without its writes, which are in a table: what a step passes on by value.
#[derive(Clone, Copy)]
pub struct Threads {
    pub shape: MemoryShape,
    pub registers: Registers,
    pub points: [u8; 4],
}

// The state without its writes.
#[tactic(auto, using(limits::proofs::BranchTests::tests), unfolding(crate::specs::State::threads_of))]
pub fn threads_of(machine: Machine) -> Threads
    ensures { result ≡ threads_of machine }
{
    let sizes = machine.memory.sizes;
    let views = machine.memory.views;
    let registers = machine.registers;
    let points = machine.points;
    Threads {
        shape: MemoryShape { sizes, views },
        registers,
        points,
    }
}

// The state with its writes, read from the table.
#[tactic(auto, using(crate::proofs::StepBranches::machine_made, limits::proofs::BranchTests::tests))]
pub fn machine_of(threads: Threads, table: &[Write; Places::COUNT]) -> Machine
    ensures { result ≡ machine_of threads table.now }
{
    let registers = threads.registers;
    let points = threads.points;
    Machine {
        memory: memory_of(threads.shape, table),
        registers,
        points,
    }
}

// The point of thread `t`.
pub fn point_of(threads: Threads, t: u8) -> u8
    ensures { result ≡ get_or threads.points (t % 4) 0 }
{
    threads.points[usize::from(t % 4)]
}

// `effect`, `t` and `position` come from the image and from two bytes of the trace, so a struct of them would be made for a single call.
// The state after a step of thread `t` with this effect at `position`; the writes are changed in `table`.
#[tactic(auto, using(crate::proofs::StepBranches::perform_made, limits::proofs::BranchTests::tests))]
pub fn perform(
    threads: Threads,
    range: u8,
    effect: Effect,
    t: u8,
    position: u8,
    table: &mut [Write; Places::COUNT],
) -> Threads
    ensures { machine_of result table.new ≡ performed (machine_of threads table.old) range effect t position }
{
    let mut points = threads.points;
    let i = usize::from(t % 4);
    let old = write_at(table, threads.shape, effect.word, position);
    points[i] = point_after(points[i], effect);
    Threads {
        shape: memory_after(threads.shape, range, effect, t, position, table),
        registers: registers_after(threads.registers, old.value, effect),
        points,
    }
}

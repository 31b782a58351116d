// One step of a trace: refused, or taken.
ghost use Rattle.std.specs.Prelude.{◌≡◌};
ghost use Rattle.replay_machine.specs.State.{machine_of};
ghost use Rattle.replay_machine.specs.Step.{value_at, effect_at, last_of, attempted, stepped, taken_of};

use crate::effect::{Effect, before, effect_of};
use crate::evaluate::work;
use crate::locals::Registers;
use crate::pick::{Refusal, pick_refusal};
use crate::state::{Threads, perform, point_of};
use image_access::formula_position::formula_at;
use image_bodies::instruction_at::instruction_of;
use image_header::sizes::Sizes;
use image_header::thread::last_point;
use image_index::indexed::Indexed;
use replay_memory::memory::write_at;
use replay_memory::write::Write;
use replay_memory::write_table::Places;

// The value of formula `number` at the registers.
fn value_at(image: &Indexed, sizes: Sizes, registers: Registers, number: usize) -> u8
    ensures { result ≡ value_at image.now sizes registers number }
{
    work(
        image.bytes(),
        formula_at(image, number),
        sizes.range,
        &registers.at,
    )
}

// The effect of the instruction at `point` of thread `t`, its formulas worked out at the registers before the step.
#[tactic(auto, using(crate::proofs::StepBranches::effect_made, limits::proofs::BranchTests::tests))]
pub fn effect_at(image: &Indexed, sizes: Sizes, registers: Registers, t: u8, point: u8) -> Effect
    ensures { result ≡ effect_at image.now sizes registers t point }
{
    let instruction = instruction_of(image, sizes, usize::from(t), usize::from(point));
    let value = value_at(image, sizes, registers, instruction.formula);
    let note = value_at(image, sizes, registers, instruction.second.formula);
    effect_of(instruction, value, note)
}

// The last point of thread `t`, counted from 1.
#[tactic(auto, using(crate::proofs::StepBranches::last_made, limits::proofs::BranchTests::tests))]
pub fn last_of(image: &Indexed, sizes: Sizes, t: u8) -> usize
    ensures { result ≡ last_of image.now sizes t }
{
    last_point(image.body_of(usize::from(sizes.formulas) + usize::from(t)))
}

// `effect`, `t` and `position` come from the image and from two bytes of the trace, so a struct of them would be made for a single call.
// A step of thread `t`, counted from 0, with this effect at `position`: refused, or taken.
#[tactic(auto, using(crate::proofs::StepBranches::attempt_branches, limits::proofs::BranchTests::tests))]
fn attempt(
    sizes: Sizes,
    room: usize,
    threads: Threads,
    effect: Effect,
    t: u8,
    position: u8,
    table: &mut [Write; Places::COUNT],
) -> Result<Threads, Refusal>
    ensures { taken_of result threads table.new ≡ attempted sizes room (machine_of threads table.old) effect t position }
{
    let picked = write_at(table, threads.shape, effect.word, position);
    pick_refusal(
        threads.shape,
        picked,
        sizes.words,
        room,
        effect,
        t,
        position,
    )?;
    Ok(perform(threads, sizes.range, effect, t, position, table))
}

// A step of thread `t`, counted from 1, at `position`; `room` is how many writes there may be.
#[tactic(auto, using(crate::proofs::StepBranches::step_branches, limits::proofs::BranchTests::tests))]
pub fn step(
    image: &Indexed,
    sizes: Sizes,
    room: usize,
    threads: Threads,
    t: u8,
    position: u8,
    table: &mut [Write; Places::COUNT],
) -> Result<Threads, Refusal>
    ensures { taken_of result threads table.new ≡ stepped image.now sizes room (machine_of threads table.old) t position }
{
    if t == 0 || sizes.threads < t {
        return Err(Refusal::Thread);
    }
    let u = before(t);
    let point = point_of(threads, u);
    if last_of(image, sizes, t) <= usize::from(point) {
        return Err(Refusal::Thread);
    }
    let effect = effect_at(image, sizes, threads.registers, t, point);
    attempt(sizes, room, threads, effect, u, position, table)
}

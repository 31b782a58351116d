// What the next turn of a run is to do, and which entry of the table it has to read for that.
ghost use Rattle.std.specs.Prelude.{◌≡◌};
ghost use Rattle.replay_run.specs.Course.{told};
ghost use Rattle.replay_run.specs.NextTurn.{entry_of, numbered, try_turn, step_turn, next_turn};

use crate::course::Course;
use image_header::header::start_value;
use image_header::sizes::Sizes;
use image_index::indexed::Indexed;
use limits::read::u8_at;
use replay_machine::effect::{Effect, before};
use replay_machine::state::{Threads, point_of};
use replay_machine::step::{effect_at, last_of};
use replay_memory::memory::index_of;

// A step of thread `t`, counted from 0, at `position`, which picks the write of entry `entry`.
#[derive(Clone, Copy)]
pub struct StepTurn {
    pub t: u8,
    pub position: u8,
    pub effect: Effect,
    pub entry: usize,
}

// Refused is a case beside the others, since `turn_by` takes all three, and its refusal is always that of a thread.
#[derive(Clone, Copy)]
pub enum NextTurn {
    // A start write of this value.
    Start(u8),
    Step(StepTurn),
    // The thread is not there or at its last point, or the trace ends with half a step.
    Refused,
}

impl NextTurn {
    // The turn that a caller has by a number: by 0 a start write of the effect's value, by 1 the step, by any other a refusal.
    #[tactic(auto, using(limits::proofs::BranchTests::tests), unfolding(crate::specs::NextTurn::numbered))]
    pub fn numbered(kind: u8, step: StepTurn) -> NextTurn
        ensures { result ≡ numbered kind step }
    {
        match kind {
            0 => NextTurn::Start(step.effect.value),
            1 => NextTurn::Step(step),
            _ => NextTurn::Refused,
        }
    }

    // The entry of the table that is read; the first one where the turn picks no write.
    pub fn entry(self) -> usize
        ensures { result ≡ entry_of self }
    {
        match self {
            NextTurn::Step(step) => step.entry,
            _ => 0,
        }
    }
}

// A step of thread `t`, counted from 0, with this effect at `position`.
#[tactic(auto, using(crate::proofs::TurnBranches::try_made, limits::proofs::BranchTests::tests))]
fn try_turn(threads: Threads, effect: Effect, t: u8, position: u8) -> StepTurn
    ensures { result ≡ try_turn threads effect t position }
{
    StepTurn {
        t,
        position,
        effect,
        entry: index_of(&threads.shape.sizes, effect.word, position),
    }
}

// A step of thread `t`, counted from 1, at `position`.
#[tactic(auto, using(crate::proofs::TurnBranches::step_turn_branches, limits::proofs::BranchTests::tests))]
fn step_turn(image: &Indexed, sizes: Sizes, threads: Threads, t: u8, position: u8) -> NextTurn
    ensures { result ≡ step_turn image.now sizes threads t position }
{
    if t == 0 || sizes.threads < t {
        return NextTurn::Refused;
    }
    let u = before(t);
    let point = point_of(threads, u);
    if last_of(image, sizes, t) <= usize::from(point) {
        return NextTurn::Refused;
    }
    let effect = effect_at(image, sizes, threads.registers, t, point);
    NextTurn::Step(try_turn(threads, effect, u, position))
}

// The next turn: the next start write while there is one, then the next step of the trace.
#[tactic(auto, using(crate::proofs::TurnBranches::next_turn_branches, limits::proofs::BranchTests::tests))]
pub fn next_turn(image: &Indexed, trace: &[u8], course: Course) -> NextTurn
    ensures { result ≡ next_turn image.now trace.now (told course) }
{
    if course.begun < course.sizes.words {
        let body = image.body_of(0);
        return NextTurn::Start(start_value(body, usize::from(course.begun) + 1));
    }
    if course.left < 2 {
        return NextTurn::Refused;
    }
    let t = u8_at(trace, trace.len().saturating_sub(course.left));
    let position = u8_at(trace, trace.len().saturating_sub(course.left - 1));
    step_turn(image, course.sizes, course.threads, t, position)
}

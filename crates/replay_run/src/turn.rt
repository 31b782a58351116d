// One turn of a run, from the write that was read.
ghost use Rattle.std.specs.Prelude.{◌≡◌};
ghost use Rattle.replay_machine.specs.Refusal.{number};
ghost use Rattle.replay_run.specs.Course.{told};
ghost use Rattle.replay_run.specs.Turn.{counted, begun_by, stopped, threads_after, performed_by, attempted_by, turn_by};

use crate::course::Course;
use crate::next_turn::{NextTurn, StepTurn};
use crate::shared::change_by;
use replay_machine::locals::{point_after, registers_after};
use replay_machine::pick::{Refusal, pick_refusal};
use replay_machine::state::Threads;
use replay_memory::view::next;
use replay_memory::write::Write;
use replay_table::access::Change;
use replay_table::order::{no_order, start_order};

// The number after `n`; the greatest stays, which bounds the sum without a precondition (a trace has no such number of steps).
#[tactic(auto, using(limits::proofs::BranchTests::tests), unfolding(crate::specs::Turn::counted))]
fn count_on(n: usize) -> usize
    ensures { result ≡ counted n }
{
    if n < usize::MAX { n + 1 } else { n }
}

// The next start write is to be inserted.
#[tactic(auto, using(crate::proofs::TurnBranches::begin_made, limits::proofs::BranchTests::tests))]
fn begin_word(course: Course, value: u8) -> Course
    ensures { told result ≡ begun_by (told course) value }
{
    let mut course = course;
    course.order = start_order(course.begun, value);
    course.left = course.left.saturating_sub(1);
    course.begun = next(course.begun);
    course
}

// The run is refused; nothing changes.
#[tactic(auto, using(crate::proofs::TurnBranches::stop_made, limits::proofs::BranchTests::tests))]
fn stop(course: Course, refusal: Refusal) -> Course
    ensures { told result ≡ stopped (told course) (number refusal) }
{
    let mut course = course;
    course.ended = Err(refusal);
    course.left = 0;
    course.order = no_order();
    course
}

// The threads after the step, whose change of sizes and views is given.
#[tactic(auto, using(crate::proofs::TurnBranches::after_made, limits::proofs::BranchTests::tests))]
fn threads_after(threads: Threads, turn: StepTurn, picked: Write, change: Change) -> Threads
    ensures { result ≡ threads_after threads turn picked change }
{
    let mut points = threads.points;
    let i = usize::from(turn.t % 4);
    points[i] = point_after(points[i], turn.effect);
    Threads {
        shape: change.shape,
        registers: registers_after(threads.registers, picked.value, turn.effect),
        points,
    }
}

// The step is taken.
#[tactic(auto, using(crate::proofs::TurnBranches::perform_made, limits::proofs::BranchTests::tests))]
fn perform(course: Course, turn: StepTurn, picked: Write) -> Course
    ensures { told result ≡ performed_by (told course) turn picked }
{
    let change = change_by(
        course.threads.shape,
        course.sizes.words,
        course.sizes.range,
        picked,
        turn.effect,
        turn.t,
        turn.position,
    );
    let mut course = course;
    course.steps = count_on(course.steps);
    course.left = course.left.saturating_sub(2);
    course.threads = threads_after(course.threads, turn, picked, change);
    course.order = change.order;
    course
}

// The step is refused, or taken.
#[tactic(auto, using(crate::proofs::TurnBranches::attempt_branches, limits::proofs::BranchTests::tests))]
fn attempt(course: Course, turn: StepTurn, picked: Write) -> Course
    ensures { told result ≡ attempted_by (told course) turn picked }
{
    match pick_refusal(
        course.threads.shape,
        picked,
        course.sizes.words,
        course.room,
        turn.effect,
        turn.t,
        turn.position,
    ) {
        Ok(()) => perform(course, turn, picked),
        Err(refusal) => stop(course, refusal),
    }
}

// One turn; `picked` is the write that the step picks.
#[tactic(auto, using(limits::proofs::BranchTests::tests), unfolding(crate::specs::Turn::turn_by))]
pub fn take_turn(course: Course, turn: NextTurn, picked: Write) -> Course
    ensures { told result ≡ turn_by (told course) turn picked }
{
    match turn {
        NextTurn::Start(value) => begin_word(course, value),
        NextTurn::Step(step) => attempt(course, step, picked),
        NextTurn::Refused => stop(course, Refusal::Thread),
    }
}

// The goal of an obligation, what it wants of a line: a template with every hole filled.
#![tactic(auto, using(crate::proofs::GoalBranches::goal_branches))]

ghost use Rattle.std.specs.Prelude.{◌≡◌, ◌<◌, set};
ghost use Rattle.limits.specs.Limits.{nesting};
ghost use Rattle.image_frames.specs.Records.{bodies};
ghost use Rattle.obligations.specs.Goal.{one_hole, two_holes, three_holes, next_point, acting_form, implied, goal_start, goal_action, goal_next, goal_step, goal_target, goal_stable, goal_claim, goal_at};

use formula::code::Code;
use formula_match::bind::{Bind, Hole};
use image_access::claim::Claimed;
use image_access::formula_position::formula_at;
use image_access::outline_point::outline_at;
use image_access::totals::Counted;
use image_bodies::instruction_at::instruction_of;
use image_header::instruction::{Instruction, is_pair};
use limits::Limits;
use rules_table::rule::Form;
use verdict_record::obligation::Obligation;

// The form of the line, of a triple the thread and point, where the template begins in GOALS, and what fills its holes.
#[derive(Clone, Copy)]
pub struct Goal {
    pub form: Form,
    pub thread: usize,
    pub point: usize,
    pub template: usize,
    pub bind: Bind,
}

impl Goal {
    // Class 1: start implies an assertion.
    pub const START: usize = 0;
    // Class 2: an instruction takes one assertion to another.
    pub const STEP: usize = 2;
    // Class 2 for a branch: an assertion and the negated test imply another assertion.
    pub const NEXT: usize = 4;
    // Class 3: an assertion and the test imply another assertion.
    pub const TARGET: usize = 10;
    // Class 4: an instruction takes two assertions to the first of them.
    pub const KEPT: usize = 15;
    // A claim: two assertions imply false.
    pub const CLAIM: usize = 19;
}

// The templates of the goals: of each its left and right side, with holes for the assertions and tests.
pub const GOALS: [u8; 24] = [
    Code::START,
    Hole::FORMULAS,
    Hole::FORMULAS,
    Hole::FORMULAS + 1,
    Code::BOTH_A,
    Hole::FORMULAS,
    Code::HOLDS,
    Code::NOT,
    Hole::FORMULAS + 1,
    Hole::FORMULAS + 2,
    Code::BOTH_A,
    Hole::FORMULAS,
    Code::HOLDS,
    Hole::FORMULAS + 1,
    Hole::FORMULAS + 2,
    Code::BOTH_A,
    Hole::FORMULAS,
    Hole::FORMULAS + 1,
    Hole::FORMULAS,
    Code::BOTH_A,
    Hole::FORMULAS,
    Hole::FORMULAS + 1,
    Code::HOLDS,
    Code::FALSE,
];

// Holes that are empty.
const EMPTY: Bind = Bind {
    at: [0; 5],
    left: [0; 5],
    num: [0; 5],
};

// The holes with hole `j` filled by the whole formula at a position.
// `j < 5` stays a clause: each caller names a hole by a constant, for which the bound is found at once.
fn filled(bind: Bind, j: usize, formula: usize) -> Bind
    requires { j < 5 }
    ensures { result ≡ record { at = set bind.at j formula; left = set bind.left j nesting; num = bind.num } }
{
    let mut bind = bind;
    bind.at[j] = formula;
    bind.left[j] = Bind::WHOLE;
    bind
}

// Holes of which the first is filled.
fn one_hole(first: usize) -> Bind
    ensures { result ≡ one_hole first }
{
    filled(EMPTY, 0, first)
}

// Holes of which the first two are filled.
fn two_holes(first: usize, second: usize) -> Bind
    ensures { result ≡ two_holes first second }
{
    filled(one_hole(first), 1, second)
}

// Holes of which the first three are filled.
fn three_holes(first: usize, second: usize, third: usize) -> Bind
    ensures { result ≡ three_holes first second third }
{
    filled(two_holes(first, second), 2, third)
}

// The goal of an implication.
fn implied(template: usize, bind: Bind) -> Goal
    ensures { result ≡ implied template bind }
{
    Goal {
        form: Form::Implication,
        thread: 0,
        point: 0,
        template,
        bind,
    }
}

// The point after `point`. No thread has a point past the limit; the test bounds the sum without a precondition.
fn next_point(point: usize) -> usize
    ensures { result ≡ next_point point }
{
    if point < Limits::POINTS {
        point + 1
    } else {
        point
    }
}

// Class 1: start implies the assertion at point 0 of thread `t`.
fn goal_start(records: &Counted, t: usize) -> Goal
    ensures { result ≡ goal_start records.now.image.now records.now.sizes t }
{
    implied(Goal::START, one_hole(outline_at(records, t, 0)))
}

// The form of a line about an instruction: a triple, for a pair a triple of the whole pair.
fn acting_form(operation: u8) -> Form
    ensures { result ≡ acting_form operation }
{
    if is_pair(operation) {
        Form::Pair
    } else {
        Form::Triple
    }
}

// Class 2: the instruction takes its point's assertion to the next point's.
// Thread and point stay two numbers: the outline is read at another point of the thread too, and `Goal` holds them so.
fn goal_action(records: &Counted, t: usize, point: usize, instruction: Instruction) -> Goal
    ensures { result ≡ goal_action records.now.image.now records.now.sizes t point instruction }
{
    let a = outline_at(records, t, point);
    let b = outline_at(records, t, next_point(point));
    Goal {
        form: acting_form(instruction.operation),
        thread: t,
        point,
        template: Goal::STEP,
        bind: two_holes(a, b),
    }
}

// Class 2 for a branch: its point's assertion and the negated test imply the next point's assertion.
fn goal_next(records: &Counted, t: usize, point: usize, instruction: Instruction) -> Goal
    ensures { result ≡ goal_next records.now.image.now records.now.sizes t point instruction }
{
    let a = outline_at(records, t, point);
    let e = formula_at(records.image, instruction.formula);
    let b = outline_at(records, t, next_point(point));
    implied(Goal::NEXT, three_holes(a, e, b))
}

// Class 2 for the instruction at `point` of thread `t`, which may be a branch.
fn goal_step(records: &Counted, t: usize, point: usize) -> Goal
    ensures { result ≡ goal_step records.now.image.now records.now.sizes t point }
{
    let instruction = instruction_of(records.image, records.sizes, t, point);
    if instruction.operation == Instruction::BRANCH {
        goal_next(records, t, point, instruction)
    } else {
        goal_action(records, t, point, instruction)
    }
}

// Class 3: the assertion at the branch's point and its test imply the target's assertion.
fn goal_target(records: &Counted, t: usize, point: usize) -> Goal
    ensures { result ≡ goal_target records.now.image.now records.now.sizes t point }
{
    let instruction = instruction_of(records.image, records.sizes, t, point);
    let a = outline_at(records, t, point);
    let e = formula_at(records.image, instruction.formula);
    let b = outline_at(records, t, usize::from(instruction.a));
    implied(Goal::TARGET, three_holes(a, e, b))
}

// Class 4: the assertion of `u` is stable under the instruction of `t`: both(its assertion, the actor's) is taken to its assertion.
fn goal_stable(
    records: &Counted,
    u: usize,
    asserting_point: usize,
    t: usize,
    acting_point: usize,
) -> Goal
    ensures { result ≡ goal_stable records.now.image.now records.now.sizes u asserting_point t acting_point }
{
    let instruction = instruction_of(records.image, records.sizes, t, acting_point);
    let a = outline_at(records, u, asserting_point);
    let b = outline_at(records, t, acting_point);
    Goal {
        form: acting_form(instruction.operation),
        thread: t,
        point: acting_point,
        template: Goal::KEPT,
        bind: two_holes(a, b),
    }
}

// The goal of a claim: false from the assertions at its two points, the lower thread's first.
pub fn goal_claim(records: &Counted, claim: Claimed) -> Goal
    ensures { result ≡ goal_claim records.now.image.now records.now.sizes claim }
{
    let a = outline_at(records, usize::from(claim.thread), usize::from(claim.point));
    let b = outline_at(
        records,
        usize::from(claim.other),
        usize::from(claim.other_point),
    );
    if claim.thread < claim.other {
        implied(Goal::CLAIM, two_holes(a, b))
    } else {
        implied(Goal::CLAIM, two_holes(b, a))
    }
}

// The goal of an obligation.
pub fn goal_of(records: &Counted, obligation: Obligation) -> Goal
    ensures { result ≡ goal_at records.now.image.now records.now.sizes obligation }
{
    match obligation {
        Obligation::Start { thread } => goal_start(records, thread),
        Obligation::Step { thread, point } => goal_step(records, thread, point),
        Obligation::Taken { thread, point } => goal_target(records, thread, point),
        Obligation::Interference {
            thread,
            point,
            other,
            other_point,
        } => goal_stable(records, thread, point, other, other_point),
    }
}

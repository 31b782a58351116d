// Interference freedom: each assertion under the actions of the other threads, by acting thread, acting point, asserting thread, asserting
// point. The public function takes the judgement so far, which stays once an obligation is not met; the others take how many are met so far.
// Each returns how many are met with its own, or the first that is not.
ghost use Rattle.std.specs.Prelude.{◌≡◌, Ok};
ghost use Rattle.image_frames.specs.Records.{bodies};
ghost use Rattle.image_header.specs.Thread.{last_point};
ghost use Rattle.image_bodies.specs.RecordPlaces.{thread_body};
ghost use Rattle.rules_justified.specs.Marks.{as_marks};
ghost use Rattle.obligations.specs.JudgementOrder.{acting_at, assertions_at, assertions_to, actions_to, interferences_to};

use crate::certificate::Certificate;
use crate::judgement::{Failure, judge_one};
use image_access::outline_point::last_point_of;
use image_bodies::instruction_at::instruction_of;
use image_header::instruction::Instruction;
use verdict_record::obligation::Obligation;

// Judges one assertion, of thread `u`, under one instruction, of thread `t`. A branch is no action, so it has no obligation.
#[tactic(auto, using(crate::proofs::GroupBranches::instructions))]
fn judge_assertion(
    certificate: &Certificate,
    u: usize,
    asserting_point: usize,
    t: usize,
    acting_point: usize,
    before: usize,
) -> Result<usize, Failure>
    ensures { result ≡ acting_at certificate.now.records.now.image.now certificate.now.records.now.sizes
        (as_marks certificate.now.marks.now) u asserting_point t acting_point (Ok before) }
{
    let records = certificate.records;
    let instruction = instruction_of(records.image, records.sizes, t, acting_point);
    if instruction.operation == Instruction::BRANCH {
        return Ok(before);
    }
    let stable = Obligation::Interference {
        thread: u,
        point: asserting_point,
        other: t,
        other_point: acting_point,
    };
    judge_one(certificate, stable, before)
}

// Judges every assertion of thread `u`, the last too, under one instruction of thread `t`. A thread does not interfere with itself.
#[tactic(auto, using(crate::proofs::GroupBranches::asserted_loop))]
fn judge_asserting(
    certificate: &Certificate,
    t: usize,
    acting_point: usize,
    u: usize,
    before: usize,
) -> Result<usize, Failure>
    ensures { result ≡ assertions_at certificate.now.records.now.image.now certificate.now.records.now.sizes
        (as_marks certificate.now.marks.now) t acting_point u (Ok before) }
{
    if t == u {
        return Ok(before);
    }
    let last = last_point_of(certificate.records.image, certificate.records.sizes, u);
    let mut count = before;
    for j in 0..=last {
        count = judge_assertion(certificate, u, j, t, acting_point, count)?;
    }
    Ok(count)
}

// Judges the assertions of all other threads under the instruction at one point of thread `t`.
#[tactic(auto, using(crate::proofs::GroupBranches::assertions_loop))]
fn judge_action(
    certificate: &Certificate,
    t: usize,
    acting_point: usize,
    before: usize,
) -> Result<usize, Failure>
    ensures { result ≡ assertions_to certificate.now.records.now.image.now certificate.now.records.now.sizes
        (as_marks certificate.now.marks.now) t acting_point certificate.now.records.now.sizes.threads (Ok before) }
{
    let mut count = before;
    for u in 1..=usize::from(certificate.records.sizes.threads) {
        count = judge_asserting(certificate, t, acting_point, u, count)?;
    }
    Ok(count)
}

// Judges the assertions of all other threads under each instruction of thread `t`.
#[tactic(auto, using(crate::proofs::GroupBranches::actions_loop))]
fn judge_actor(certificate: &Certificate, t: usize, before: usize) -> Result<usize, Failure>
    ensures { result ≡ actions_to certificate.now.records.now.image.now certificate.now.records.now.sizes
        (as_marks certificate.now.marks.now)
        t (last_point (thread_body certificate.now.records.now.sizes (bodies certificate.now.records.now.image.now) t)) (Ok before) }
{
    let last = last_point_of(certificate.records.image, certificate.records.sizes, t);
    let mut count = before;
    for k in 0..last {
        count = judge_action(certificate, t, k, count)?;
    }
    Ok(count)
}

// Judges all obligations of class 4.
#[tactic(auto, using(crate::proofs::GroupBranches::interferences_loop))]
pub fn judge_interferences(
    certificate: &Certificate,
    judgement: Result<usize, Failure>,
) -> Result<usize, Failure>
    ensures { result ≡ interferences_to certificate.now.records.now.image.now certificate.now.records.now.sizes
        (as_marks certificate.now.marks.now) certificate.now.records.now.sizes.threads judgement }
{
    let before = judgement?;
    let mut count = before;
    for t in 1..=usize::from(certificate.records.sizes.threads) {
        count = judge_actor(certificate, t, count)?;
    }
    Ok(count)
}

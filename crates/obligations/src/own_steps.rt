// The obligations of classes 1 to 3: starts, then steps and branches taken, by thread and point. A public function takes the
// judgement so far, which stays once an obligation is not met; the others take how many are met so far. Each returns how many are met with
// its own, or the first that is not.
ghost use Rattle.std.specs.Prelude.{◌≡◌, Ok};
ghost use Rattle.image_frames.specs.Records.{bodies};
ghost use Rattle.image_header.specs.Thread.{last_point};
ghost use Rattle.image_bodies.specs.RecordPlaces.{thread_body};
ghost use Rattle.rules_justified.specs.Marks.{as_marks};
ghost use Rattle.obligations.specs.JudgementOrder.{starts_to, own_at, own_to, steps_to};

use crate::certificate::Certificate;
use crate::judgement::{Failure, judge_one};
use image_access::outline_point::last_point_of;
use image_bodies::instruction_at::instruction_of;
use image_header::instruction::Instruction;
use verdict_record::obligation::Obligation;

// Judges the obligations of class 1: start gives each thread's point 0.
#[tactic(auto, using(crate::proofs::GroupBranches::starts_loop))]
pub fn judge_starts(
    certificate: &Certificate,
    judgement: Result<usize, Failure>,
) -> Result<usize, Failure>
    ensures { result ≡ starts_to certificate.now.records.now.image.now certificate.now.records.now.sizes
        (as_marks certificate.now.marks.now) certificate.now.records.now.sizes.threads judgement }
{
    let before = judgement?;
    let mut count = before;
    for t in 1..=usize::from(certificate.records.sizes.threads) {
        count = judge_one(certificate, Obligation::Start { thread: t }, count)?;
    }
    Ok(count)
}

// Judges the obligations of one instruction: it leads to the next point; a branch first leads to its target.
#[tactic(auto, using(crate::proofs::GroupBranches::instructions))]
fn judge_own(
    certificate: &Certificate,
    t: usize,
    point: usize,
    before: usize,
) -> Result<usize, Failure>
    ensures { result ≡ own_at certificate.now.records.now.image.now certificate.now.records.now.sizes
        (as_marks certificate.now.marks.now) t point (Ok before) }
{
    let records = certificate.records;
    let step = Obligation::Step { thread: t, point };
    let instruction = instruction_of(records.image, records.sizes, t, point);
    if instruction.operation == Instruction::BRANCH {
        let count = judge_one(certificate, Obligation::Taken { thread: t, point }, before)?;
        return judge_one(certificate, step, count);
    }
    judge_one(certificate, step, before)
}

// Judges the obligations of the instructions of thread `t`.
#[tactic(auto, using(crate::proofs::GroupBranches::own_loop))]
fn judge_thread(certificate: &Certificate, t: usize, before: usize) -> Result<usize, Failure>
    ensures { result ≡ own_to certificate.now.records.now.image.now certificate.now.records.now.sizes
        (as_marks certificate.now.marks.now)
        t (last_point (thread_body certificate.now.records.now.sizes (bodies certificate.now.records.now.image.now) t)) (Ok before) }
{
    let last = last_point_of(certificate.records.image, certificate.records.sizes, t);
    let mut count = before;
    for k in 0..last {
        count = judge_own(certificate, t, k, count)?;
    }
    Ok(count)
}

// Judges the obligations of classes 2 and 3, of all threads.
#[tactic(auto, using(crate::proofs::GroupBranches::steps_loop))]
pub fn judge_steps(
    certificate: &Certificate,
    judgement: Result<usize, Failure>,
) -> Result<usize, Failure>
    ensures { result ≡ steps_to certificate.now.records.now.image.now certificate.now.records.now.sizes
        (as_marks certificate.now.marks.now) certificate.now.records.now.sizes.threads judgement }
{
    let before = judgement?;
    let mut count = before;
    for t in 1..=usize::from(certificate.records.sizes.threads) {
        count = judge_thread(certificate, t, count)?;
    }
    Ok(count)
}

// The judgement on obligations, taken one by one.
#![tactic(auto, using(crate::proofs::JudgementBranches::judgement_branches))]

ghost use Rattle.std.specs.Prelude.{◌≡◌};
ghost use Rattle.rules_justified.specs.Marks.{as_marks};
ghost use Rattle.obligations.specs.Judgement.{judge_one};

use crate::certificate::Certificate;
use crate::concludes::{Unmet, code_at};
use image_access::named_line::named_line;
use verdict_record::obligation::Obligation;

// The first obligation that is not met: why not, the line that it names, and how many are met before it.
#[derive(Clone, Copy)]
pub struct Failure {
    pub what: Obligation,
    pub unmet: Unmet,
    pub line: usize,
    pub count: usize,
}

// Judges the obligation with number `count`, from 0, and returns how many are met with it. If there is no such number, which no well-formed
// image has, the obligation counts as unmet; this bounds the count without a precondition.
pub fn judge_one(
    certificate: &Certificate,
    obligation: Obligation,
    count: usize,
) -> Result<usize, Failure>
    ensures { result ≡ judge_one certificate.now.records.now.image.now certificate.now.records.now.sizes
        (as_marks certificate.now.marks.now) obligation count }
{
    let records = certificate.records;
    if records.totals.obligations <= count {
        return Err(Failure {
            what: obligation,
            unmet: Unmet::NoLine,
            line: 0,
            count,
        });
    }
    let line = named_line(records, count);
    match code_at(certificate, obligation, line) {
        Ok(()) => Ok(count + 1),
        Err(unmet) => Err(Failure {
            what: obligation,
            unmet,
            line,
            count,
        }),
    }
}

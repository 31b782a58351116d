// Whether a line concludes the goal of an obligation, and what is wrong with it.
#![tactic(auto, using(crate::proofs::ConcludesBranches::concludes_branches))]

ghost use Rattle.std.specs.Prelude.{◌≡◌, ◌<◌};
ghost use Rattle.rules_justified.specs.Marks.{as_marks};
ghost use Rattle.obligations.specs.Concludes.{meets, concludes_at, sustained_at, code_at};

use crate::certificate::Certificate;
use crate::goal::{GOALS, Goal, goal_claim, goal_of};
use image_access::claim::claim_of;
use image_access::totals::Counted;
use rules_justified::marks::is_marked;
use rules_line::conclusion::match_conclusion;
use rules_line::line_conclusion::conclusion_of;
use verdict_record::obligation::Obligation;

// Why an obligation is not met.
#[derive(Clone, Copy, PartialEq, Eq)]
pub enum Unmet {
    NoLine,
    SaysElse,
    Unjustified,
}

impl Unmet {
    ghost use Rattle.obligations.specs.Unmet.{code_number};

    // The code that a verdict names it by.
    // A method and no `From`, since its name says that the number is a code.
    pub fn code(self) -> u8
        ensures { result ≡ code_number self }
    {
        match self {
            Unmet::NoLine => 20,
            Unmet::SaysElse => 21,
            Unmet::Unjustified => 22,
        }
    }
}

// Line `number` concludes the goal.
fn is_said(records: &Counted, goal: &Goal, number: usize) -> bool
    ensures { result ≡ meets records.now.image.now records.now.sizes goal.now number }
{
    let c = conclusion_of(records.image, records.sizes, number);
    match_conclusion(
        records.image.bytes(),
        &GOALS,
        goal.template,
        goal.form,
        goal.thread,
        goal.point,
        c,
        goal.bind,
    )
    .is_some()
}

// Line `number` concludes the goal of the obligation.
pub fn concludes(records: &Counted, obligation: Obligation, number: usize) -> bool
    ensures { result ≡ concludes_at records.now.image.now records.now.sizes obligation number }
{
    is_said(records, &goal_of(records, obligation), number)
}

// The line of claim `i` proves it: the line is there, concludes that false follows from both assertions, and is justified.
// `i < 65536` stays a clause, as in `image_access::claim`: a type of 16 bits would narrow the parameter.
pub fn is_sustained(certificate: &Certificate, i: usize) -> bool
    requires { i < 65536 }
    ensures { result ≡ sustained_at certificate.now.records.now.image.now certificate.now.records.now.sizes
        (as_marks certificate.now.marks.now) i }
{
    let records = certificate.records;
    let claim = claim_of(records.image, records.sizes, i);
    claim.line != 0
        && is_said(records, &goal_claim(records, claim), claim.line)
        && is_marked(certificate.marks, claim.line)
}

// The first thing that is wrong with line `number` as the line of the obligation.
pub fn code_at(
    certificate: &Certificate,
    obligation: Obligation,
    number: usize,
) -> Result<(), Unmet>
    ensures { result ≡ code_at certificate.now.records.now.image.now certificate.now.records.now.sizes
        (as_marks certificate.now.marks.now) obligation number }
{
    if number == 0 {
        return Err(Unmet::NoLine);
    }
    if !concludes(certificate.records, obligation, number) {
        return Err(Unmet::SaysElse);
    }
    if !is_marked(certificate.marks, number) {
        return Err(Unmet::Unjustified);
    }
    Ok(())
}

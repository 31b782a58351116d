// The verdict on an image, and the nine numbers of its record.
ghost use Rattle.std.specs.Prelude.{◌≡◌};
ghost use Rattle.verdict_record.specs.Fields.{gathered, fields_of};

use crate::fault_code::code_of;
use crate::obligation::{NOWHERE, Obligation, Place};
use image_frames::fault::Fault;

// The four kinds of verdicts.
#[derive(Clone, Copy)]
pub enum Verdict {
    // All obligations, `count` of them, are met, and every claim is sustained.
    Accepted {
        count: usize,
    },
    // The image is not well formed: its first fault, and the record that has it.
    Refused {
        fault: Fault,
        record: usize,
    },
    // The first obligation that is not met: the code that says why, the line that it names, and how many are met before it.
    Failed {
        what: Obligation,
        code: u8,
        line: usize,
        count: usize,
    },
    // Every obligation is met, and this is the first claim that its line does not prove: its record, threads and points.
    Denied {
        record: usize,
        place: Place,
        line: usize,
        count: usize,
    },
}

impl Verdict {
    // The code of a claim whose line is 0, unjustified or concludes something else.
    pub const DENIED: u16 = 26;
}

// The nine numbers, in the order of the record; those that don't apply are 0.
// The code stays a number: this is the page's record as it is written, and `Verdict` is the enum that it is made from.
#[derive(Clone, Copy)]
pub struct Fields {
    pub code: u16,
    pub record: usize,
    pub class: usize,
    pub thread: usize,
    pub point: usize,
    pub other_thread: usize,
    pub other_point: usize,
    pub line: usize,
    pub count: usize,
}

// The nine numbers, with the place of an obligation or a claim taken apart.
#[tactic(auto, using(limits::proofs::BranchTests::tests), unfolding(crate::specs::Fields::gathered))]
fn gather(code: u16, record: usize, place: Place, line: usize, count: usize) -> Fields
    ensures { result ≡ gathered code «record» place line count }
{
    Fields {
        code,
        record,
        class: place.class,
        thread: place.thread,
        point: place.point,
        other_thread: place.other_thread,
        other_point: place.other_point,
        line,
        count,
    }
}

// The nine numbers of a verdict.
#[tactic(auto, using(crate::proofs::VerdictBranches::fields_of_branches, limits::proofs::BranchTests::tests))]
pub fn fields_of(verdict: Verdict) -> Fields
    ensures { result ≡ fields_of verdict }
{
    match verdict {
        Verdict::Accepted { count } => gather(0, 0, NOWHERE, 0, count),
        Verdict::Refused { fault, record } => {
            gather(code_of(fault) as u16, record, NOWHERE, 0, 0)
        }
        Verdict::Failed {
            what,
            code,
            line,
            count,
        } => gather(u16::from(code), 0, Place::from(what), line, count),
        Verdict::Denied {
            record,
            place,
            line,
            count,
        } => gather(Verdict::DENIED, record, place, line, count),
    }
}

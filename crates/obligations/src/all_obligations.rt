// All obligations of an image, in order.
ghost use Rattle.std.specs.Prelude.{◌≡◌, Ok};
ghost use Rattle.logic.specs.Obligations.{obligations};
ghost use Rattle.image_frames.specs.Records.{bodies};
ghost use Rattle.image_meaning.specs.Program.{program_of};
ghost use Rattle.rules_justified.specs.Marks.{as_marks};
ghost use Rattle.obligations.specs.Judgement.{judge_at};

use crate::certificate::Certificate;
use crate::interference::judge_interferences;
use crate::judgement::Failure;
use crate::own_steps::{judge_starts, judge_steps};
use image_access::totals::Counted;
use image_header::sizes::Sizes;
use image_index::indexed::Indexed;

// Judges the obligations of all classes.
#[tactic(auto, using(crate::proofs::GroupBranches::all_judged_branches))]
fn judge_all(certificate: &Certificate) -> Result<usize, Failure>
    ensures { result ≡ judge_at certificate.now.records.now.image.now certificate.now.records.now.sizes
        (as_marks certificate.now.marks.now)
        (obligations (program_of certificate.now.records.now.sizes (bodies certificate.now.records.now.image.now))) 0 }
{
    let starts = judge_starts(certificate, Ok(0));
    let steps = judge_steps(certificate, starts);
    judge_interferences(certificate, steps)
}

// Judges all obligations in order: how many are met, or the first that is not. `marks` tells which lines are justified.
// The parameters stay apart: docs/PROOFS.md names this function, so it asks for no `Certificate`, which it makes itself.
pub fn judge_obligations(image: &Indexed, sizes: Sizes, marks: &[bool]) -> Result<usize, Failure>
    ensures { result ≡ judge_at image.now sizes (as_marks marks.now) (obligations (program_of sizes (bodies image.now))) 0 }
{
    let records = Counted::new(image, sizes);
    judge_all(&Certificate {
        records: &records,
        marks,
    })
}

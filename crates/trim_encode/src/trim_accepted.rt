// Trimming of an accepted image into a buffer.
#![tactic(auto, using(crate::proofs::TrimBranches::trim_accepted_branches, limits::proofs::BranchTests::tests))]

ghost use Rattle.std.specs.Prelude.{◌≡◌};
ghost use Rattle.trim_encode.specs.TrimAccepted.{Accepted};
ghost use Rattle.trim_encode.specs.Trimmed.{trimmed_bytes};
ghost use Rattle.trim_encode.specs.Answer.{answered_by, buffer_by};

use crate::answer::Untrimmed;
use crate::live_formulas::mark_live_formulas;
use crate::live_lines::mark_live_lines;
use crate::numbering::{Renumbering, fill_numbers};
use crate::recorded::Recorded;
use crate::trimmed_length::trimmed_length;
use crate::trimming::Trimming;
use crate::well_formed::WellFormed;
use image_header::sizes::Sizes;
use image_index::indexed::Indexed;
use limits::Limits;

// Writes the trimmed image and returns its length; a buffer that is too short stays as it was.
pub fn trim_accepted(image: &Indexed, sizes: Sizes, out: &mut [u8]) -> Result<usize, Untrimmed>
    requires { Accepted image.now sizes }
    ensures { (result ≡ answered_by (trimmed_bytes sizes image.now) out.old)
        × (out.new ≡ buffer_by (trimmed_bytes sizes image.now) out.old) }
{
    let records = Recorded {
        indexed: image,
        sizes,
    };
    let mut live_lines = [false; Limits::LINES + 1];
    mark_live_lines(&records, &mut live_lines);
    let mut live_formulas = [false; Limits::FORMULAS + 1];
    mark_live_formulas(&records, &live_lines, &mut live_formulas);
    let image = WellFormed {
        indexed: image,
        sizes,
    };
    let length = trimmed_length(&image, &live_lines, &live_formulas);
    if out.len() < length {
        return Err(Untrimmed::Short);
    }
    let mut formula_numbers = [0usize; Limits::FORMULAS + 1];
    fill_numbers(&live_formulas, &mut formula_numbers);
    let mut line_numbers = [0usize; Limits::LINES + 1];
    fill_numbers(&live_lines, &mut line_numbers);
    let formulas = Renumbering {
        live: &live_formulas,
        numbers: &formula_numbers,
    };
    let lines = Renumbering {
        live: &live_lines,
        numbers: &line_numbers,
    };
    let trimming = Trimming::new(image, formulas, lines);
    trimming.write(out);
    Ok(length)
}

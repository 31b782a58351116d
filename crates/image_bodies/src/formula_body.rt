// A formula's record: 1 to 255 bytes that the reader accepts.
ghost use Rattle.std.specs.Prelude.{◌≡◌};
ghost use Rattle.image_bodies.specs.FormulaBody.{counts_of, fault_of, formula};

use formula::reader::{Counts, read_formula};
use image_frames::fault::Fault;
use image_header::sizes::Sizes;
use limits::Limits;
use limits::range::in_range;

// The reader's fault as one of the image: an operand outside its range, or a malformed formula.
#[tactic(auto, unfolding(crate::specs::FormulaBody::fault_of))]
fn fault_of(fault: formula::reader::Fault) -> Fault
    ensures { result ≡ fault_of fault }
{
    match fault {
        formula::reader::Fault::Range => Fault::Number,
        formula::reader::Fault::Malformed => Fault::Formula,
    }
}

// The counts that the reader needs, from the sizes of the image.
#[tactic(auto, unfolding(crate::specs::FormulaBody::counts_of))]
fn counts_of(sizes: Sizes) -> Counts
    ensures { result ≡ counts_of sizes }
{
    Counts {
        threads: sizes.threads,
        words: sizes.words,
        registers: sizes.registers,
        values: sizes.range,
    }
}

// Checks the length of a formula's record, then its bytes up to the first fault from the left.
#[tactic(auto, unfolding(crate::specs::FormulaBody::formula, crate::specs::FormulaBody::read, image_frames::specs::Fault::unless))]
pub fn check_formula(body: &[u8], sizes: Sizes) -> Result<(), Fault>
    ensures { result ≡ formula sizes body.now }
{
    if !in_range(body.len(), 1, Limits::FORMULA_BYTES) {
        return Err(Fault::Body);
    }
    match read_formula(body, counts_of(sizes)) {
        Ok(_) => Ok(()),
        Err(fault) => Err(fault_of(fault)),
    }
}

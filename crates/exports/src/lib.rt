// Functions for the benchmarks, which call them from Rust: each result is one number.
#![tactic(auto)]

pub mod rows;

ghost use Rattle.std.specs.Prelude.{◌≡◌};
ghost use Rattle.formula.specs.Reader.{reading_of};
ghost use Rattle.image.specs.Decode.{decoded};
ghost use Rattle.exports.specs.Answers.{of_reading, of_decoded};

use formula::reader::{Answer, Counts, read_formula};
use image::decode::decode_image;
use image_index::indexed::Indexed;
use image_index::lent::with_index;
use verdict_record::fault_code::code_of;

// The result of `read_formula` as one number: a fault, or the sort plus `Answer::LIMIT`.
#[tactic(auto, using(crate::proofs::ExportBranches::main_branches))]
#[unsafe(no_mangle)]
pub extern "C" fn formula_answer(
    body: &[u8],
    threads: u8,
    words: u8,
    registers: u8,
    values: u8,
) -> usize
    ensures { result ≡ of_reading (reading_of body.now
        (record { threads = threads; words = words; registers = registers; values = values })) }
{
    let counts = Counts {
        threads,
        words,
        registers,
        values,
    };
    match read_formula(body, counts) {
        Ok(sort) => Answer::LIMIT + usize::from(sort),
        Err(fault) => usize::from(fault),
    }
}

// The result of decoding as one number. No image has 65,536 records; `%` spares a proof of that.
#[tactic(auto, using(crate::proofs::ExportBranches::main_branches))]
fn answer_of(image: &Indexed) -> usize
    ensures { result ≡ of_decoded (decoded image.now) }
{
    match decode_image(image) {
        Ok(_) => 0,
        Err(refusal) => code_of(refusal.fault) * 65536 + refusal.record % 65536,
    }
}

// The result of `decode_image` as one number: 0 for a well-formed image, else the code times 65,536, plus the record.
#[unsafe(no_mangle)]
pub extern "C" fn image_answer(image: &[u8]) -> usize
    ensures { result ≡ of_decoded (decoded image.now) }
{
    with_index(image, |indexed| answer_of(indexed))
}

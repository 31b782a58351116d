// The cases of the file: a formula as the body; as the tail threads, words, registers and the range (a byte each), the result and the sort
// (16 bits each).
ghost use Rattle.std.specs.Prelude.{◌≡◌, IfOk, IfErr};
ghost use Rattle.vectors.specs.CasesCounted.{FromCases};
ghost use Rattle.vectors_formulas.specs.Judge.{counts_at, with_formula};

use crate::answer::{is_answer, kind_of, numbered};
use formula::reader::{Counts, read_formula};
use limits::read::{u8_at, u16_at};
use std::io::Read;
use vectors::case::read_case;
use vectors::counters::{Counters, Most, no_case, with_case};
use vectors::end::{Fault, Stop};

// The length of a tail.
#[derive(Drop)]
struct Stored;

impl Stored {
    pub const BYTES: usize = 8;

    // The space for a formula, which is far shorter.
    pub const SPACE: usize = 4096;
}

// The numbers of threads, words, registers and values in a tail.
#[tactic(auto, unfolding(crate::specs::Judge::counts_at))]
fn counts_at(bytes: &[u8]) -> Counts
    ensures { result ≡ counts_at bytes.now }
{
    Counts {
        threads: u8_at(bytes, 0),
        words: u8_at(bytes, 1),
        registers: u8_at(bytes, 2),
        values: u8_at(bytes, 3),
    }
}

// The counters with one formula more, by its reading, and whether that is the stored one.
#[tactic(auto, using(crate::proofs::AnswerBranches::formula_counted, limits::proofs::BranchTests::tests))]
fn with_formula(counters: Counters, body: &[u8], stored: &[u8]) -> Counters
    ensures { result ≡ with_formula counters body.now stored.now }
{
    let reading = numbered(read_formula(body, counts_at(stored)));
    let same = is_answer(reading, u16_at(stored, 4), u16_at(stored, 6));
    with_case(counters, kind_of(reading), same)
}

// Judges the cases of a file.
pub fn judge_all<R: Read>(reader: &mut R) -> Result<Counters, Stop>
    ensures judged { IfOk result FromCases }
    ensures stopped { IfErr result (λ stop. FromCases stop.tally) }
{
    let mut space = [0u8; Stored::SPACE];
    let mut stored = [0u8; Stored::BYTES];
    let mut tally = no_case();
    // One case more than is judged shows that there are too many.
    for _ in 0..=Most::CASES {
        match read_case(reader, &mut space, &mut stored) {
            Ok(Some(n)) => {
                tally = with_formula(tally, &space[..n], &stored);
            }
            Ok(None) => return Ok(tally),
            Err(fault) => return Err(Stop { fault, tally }),
        }
    }
    Err(Stop {
        fault: Fault::Many,
        tally,
    })
}

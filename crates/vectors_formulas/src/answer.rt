// Results of the formula reader, compared with the stored ones.
ghost use Rattle.std.specs.Prelude.{◌≡◌};
ghost use Rattle.vectors_formulas.specs.Answer.{numbered, kind_of, is_answer};

use formula::reader::Fault;

// A reading with the number of its fault.
pub fn numbered(reading: Result<u8, Fault>) -> Result<u8, usize>
    ensures { result ≡ numbered reading }
{
    reading.map_err(usize::from)
}

// The number by which a reading is counted: a formula's sort, or the fault. No fault of the reader has the number of a sort.
#[tactic(auto, unfolding(crate::specs::Answer::kind_of))]
pub fn kind_of(reading: Result<u8, usize>) -> usize
    ensures { result ≡ kind_of reading }
{
    match reading {
        Ok(sort) => usize::from(sort),
        Err(fault) => fault,
    }
}

// Whether a reading is the stored one: `res` is 0 or the fault, and `sort` is 0 where the formula is refused.
#[tactic(auto, using(limits::proofs::BranchTests::tests), unfolding(crate::specs::Answer::is_answer))]
pub fn is_answer(reading: Result<u8, usize>, res: usize, sort: usize) -> bool
    ensures { result ≡ is_answer reading res sort }
{
    match reading {
        Ok(found) => res == 0 && usize::from(found) == sort,
        Err(fault) => sort == 0 && fault == res,
    }
}

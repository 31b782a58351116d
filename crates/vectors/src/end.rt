// Where the cases of a file end.
ghost use Rattle.std.specs.Prelude.{◌≡◌};
ghost use Rattle.vectors.specs.End.{end_after};
ghost use Rattle.vectors.specs.declared.end.Fault.TheVariants.{Unread};

use crate::counters::{Counters, Most, more_than};
use std::fmt;
use std::io::Error;

// Why the cases of a file are not all judged.
#[derive(Clone, Copy)]
pub enum Fault {
    // The file ends within a case.
    Cut,
    // A read failed, with this error.
    Unread(Error),
    // A case is longer than the space for it.
    Large,
    // There are more cases than are judged.
    Many,
}

impl From<Error> for Fault {
    ghost from_gives = { λ error fault. fault ≡ Unread error };

    fn from(error: Error) -> Fault {
        Fault::Unread(error)
    }
}

// A fault, and the counters of the whole cases before it.
#[derive(Clone, Copy)]
pub struct Stop {
    pub fault: Fault,
    pub tally: Counters,
}

impl fmt::Display for Stop {
    fn fmt<W: fmt::Write>(&self, f: &mut fmt::Formatter<W>) -> fmt::Result {
        let next = more_than(self.tally.cases);
        match self.fault {
            Fault::Cut => write!(f, "the file ends within case {next}"),
            Fault::Unread(error) => write!(f, "{error}"),
            Fault::Large => write!(f, "no space for case {next}"),
            Fault::Many => {
                let most = Most::CASES;
                write!(f, "the file goes on after case {most}")
            }
        }
    }
}

// A file that ends `n` bytes into a case.
#[tactic(auto, using(limits::proofs::BranchTests::tests), unfolding(crate::specs::End::end_after))]
pub fn end_after(n: usize) -> Result<(), Fault>
    ensures { result ≡ end_after n }
{
    if n == 0 {
        return Ok(());
    }
    Err(Fault::Cut)
}

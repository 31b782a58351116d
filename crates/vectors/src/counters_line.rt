// Counters as text.
use crate::counters::Counters;
use std::fmt;

// How many cases differ, and which is the first.
#[derive(Clone, Copy)]
pub struct Differences {
    pub differ: u64,
    pub first: Option<u64>,
}

impl From<Counters> for Differences {
    fn from(counters: Counters) -> Differences {
        Differences {
            differ: counters.differ,
            first: counters.first,
        }
    }
}

impl fmt::Display for Differences {
    fn fmt<W: fmt::Write>(&self, f: &mut fmt::Formatter<W>) -> fmt::Result {
        write!(f, "{} differ", self.differ)?;
        match self.first {
            Some(first) => write!(f, ", first case {first}"),
            None => Ok(()),
        }
    }
}

// The counters of answers that are counted by their codes.
impl fmt::Display for Counters {
    fn fmt<W: fmt::Write>(&self, f: &mut fmt::Formatter<W>) -> fmt::Result {
        write!(f, "{} cases", self.cases)?;
        for (code, n) in self.kinds.iter().enumerate() {
            if *n != 0 {
                write!(f, ", {n} of code {code}")?;
            }
        }
        write!(f, "; {}", Differences::from(*self))
    }
}

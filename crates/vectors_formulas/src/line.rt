// The line that the program writes.
use formula::code::Place;
use formula::reader::Fault;
use std::fmt;
use vectors::counters::Counters;
use vectors::counters_line::Differences;

// How many formulas have each sort or fault, and how many readings differ.
#[derive(Clone, Copy)]
pub struct Line {
    pub tally: Counters,
}

impl fmt::Display for Line {
    fn fmt<W: fmt::Write>(&self, f: &mut fmt::Formatter<W>) -> fmt::Result {
        let kinds = &self.tally.kinds;
        write!(f, "{} cases: ", self.tally.cases)?;
        write!(f, "{} values, ", kinds[Place::VALUE as usize])?;
        write!(f, "{} tests, ", kinds[Place::TEST as usize])?;
        write!(f, "{} intervals, ", kinds[Place::INTERVAL as usize])?;
        write!(f, "{} assertions, ", kinds[Place::ASSERTION as usize])?;
        write!(f, "{} of fault 6, ", kinds[usize::from(Fault::Range)])?;
        write!(f, "{} of fault 7; ", kinds[usize::from(Fault::Malformed)])?;
        write!(f, "{}", Differences::from(self.tally))
    }
}

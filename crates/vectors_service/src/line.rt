// The line that the program writes for a file.
use std::fmt;
use vectors::counters::Counters;
use vectors::counters_line::Differences;
use vectors::turn::TurnKind;

// How many turns there are of each kind, and how many differ.
#[derive(Clone, Copy)]
pub struct Line {
    pub tally: Counters,
}

impl fmt::Display for Line {
    fn fmt<W: fmt::Write>(&self, f: &mut fmt::Formatter<W>) -> fmt::Result {
        let kinds = &self.tally.kinds;
        write!(f, "{} cases: ", self.tally.cases)?;
        write!(f, "{} opened, ", kinds[usize::from(TurnKind::Open)])?;
        write!(f, "{} set, ", kinds[usize::from(TurnKind::Set)])?;
        write!(f, "{} checked, ", kinds[usize::from(TurnKind::Check)])?;
        write!(f, "{} trimmed, ", kinds[usize::from(TurnKind::Trim)])?;
        write!(f, "{} billed, ", kinds[usize::from(TurnKind::Bill)])?;
        write!(
            f,
            "{} handed over, ",
            kinds[usize::from(TurnKind::Handover)]
        )?;
        write!(f, "{} replayed, ", kinds[usize::from(TurnKind::Replay)])?;
        write!(
            f,
            "{} replayed across; ",
            kinds[usize::from(TurnKind::ReplayAcross)]
        )?;
        write!(f, "{}", Differences::from(self.tally))
    }
}

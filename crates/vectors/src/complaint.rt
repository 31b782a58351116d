// What is said of a file of cases, to standard output or standard error.
//
// The programs have nothing left to tell where a stream takes no more, so a write that fails changes nothing that they do.
ghost use Rattle.std.specs.Prelude.{◌≡◌};
ghost use Rattle.vectors.specs.End.{passed};

use crate::counters::Counters;
use crate::end::Stop;
use std::fmt::Display;

// Writes a line: what is named, and what there is to say of it.
pub fn say<W: Print, D: Display + Drop>(to: &W, path: &[u8], what: D) {
    let _ = to.write_all(path);
    let _ = println!(to; ": {what}");
}

// The counters of a file that has cases, all of which are judged; else none, and standard error says why.
#[tactic(auto, using(limits::proofs::BranchTests::tests), unfolding(crate::specs::End::passed))]
pub fn passed<E: Print>(err: &E, path: &[u8], judged: Result<Counters, Stop>) -> Option<Counters>
    ensures { result ≡ passed judged }
{
    match judged {
        Ok(tally) => {
            if tally.cases != 0 {
                return Some(tally);
            }
            say(err, path, "no case");
        }
        Err(stop) => say(err, path, stop),
    }
    None
}

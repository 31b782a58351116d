// The cases of a file.
ghost use Rattle.std.specs.Prelude.{IfOk, IfErr};
ghost use Rattle.vectors.specs.CasesCounted.{FromCases};
ghost use Rattle.vectors_calls.specs.Judge.{Counted};

use crate::bills::with_bill;
use crate::handover_replays::with_across;
use crate::handovers::with_handover;
use crate::kind::{Kind, Tail, tail_of};
use crate::replays::with_replay;
use crate::trims::with_trimmed;
use crate::verdicts::with_verdict;
use std::io::Read;
use vectors::case::read_case;
use vectors::counters::{Counters, Most, no_case};
use vectors::end::{Fault, Stop};
use vectors::space::space_for_body;

// The counters with one call more, by the code returned, and whether the answer is the stored one.
// A closure for each kind would need one clause for all six promises; here each arm has its own, in `Counted`.
// Counters and both parts of a case are passed one by one: a struct of them would be made and taken apart for each case.
#[tactic(auto, unfolding(crate::specs::Judge::Counted))]
fn with_call(kind: Kind, counters: Counters, body: &[u8], bytes: &[u8]) -> Counters
    ensures { Counted kind body.now bytes.now counters result }
{
    match kind {
        Kind::Verdicts => with_verdict(counters, body, bytes),
        Kind::Trims => with_trimmed(counters, body, bytes),
        Kind::Bills => with_bill(counters, body, bytes),
        Kind::Replays => with_replay(counters, body, bytes),
        Kind::Handovers => with_handover(counters, body, bytes),
        Kind::Across => with_across(counters, body, bytes),
    }
}

// Judges the cases of a file of this kind.
pub fn judge_all<R: Read>(reader: &mut R, kind: Kind) -> Result<Counters, Stop>
    ensures judged { IfOk result FromCases }
    ensures stopped { IfErr result (λ stop. FromCases stop.tally) }
{
    let mut space = space_for_body();
    let mut stored = [0u8; Tail::MOST];
    let tail = tail_of(kind);
    let mut tally = no_case();
    // One case more than is judged shows that there are too many.
    for _ in 0..=Most::CASES {
        match read_case(reader, &mut space, &mut stored[..tail]) {
            Ok(Some(n)) => {
                tally = with_call(kind, tally, &space[..n], &stored[..tail]);
            }
            Ok(None) => return Ok(tally),
            Err(fault) => return Err(Stop { fault, tally }),
        }
    }
    Err(Stop {
        fault: Fault::Many,
        tally,
    })
}

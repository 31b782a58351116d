// The steps of a trace, two bytes each, until one is refused.
ghost use Rattle.std.specs.Prelude.{◌≡◌};
ghost use Rattle.replay_machine.specs.State.{machine_of};
ghost use Rattle.replay_machine.specs.Run.{ran, told, run_of};

use crate::pick::Refusal;
use crate::state::{Machine, Threads, machine_of, threads_of};
use crate::step::step;
use image_header::sizes::Sizes;
use image_index::indexed::Indexed;
use replay_memory::write::Write;
use replay_memory::write_table::Places;

// Why the run ended before the trace did, if it was refused; the steps taken; the state reached.
#[derive(Clone, Copy)]
pub struct Run {
    pub ended: Result<(), Refusal>,
    pub steps: usize,
    pub machine: Machine,
}

// A run without its writes, which are in a table.
#[derive(Clone, Copy)]
pub struct Reached {
    pub ended: Result<(), Refusal>,
    pub steps: usize,
    pub threads: Threads,
}

// Runs the trace from the state `from`, whose writes are in `table`; that is changed in place.
#[tactic(auto, using(crate::proofs::RunBranches::run_on_branches, limits::proofs::BranchTests::tests))]
fn run_on(
    image: &Indexed,
    sizes: Sizes,
    room: usize,
    from: Threads,
    trace: &[u8],
    table: &mut [Write; Places::COUNT],
) -> Reached
    ensures { run_of result table.new
        ≡ ran image.now sizes room (machine_of from table.old) 0 trace.now }
{
    let mut threads = from;
    for i in 0..trace.len() / 2 {
        let t = trace[2 * i];
        let position = trace[2 * i + 1];
        match step(image, sizes, room, threads, t, position, table) {
            Ok(after) => threads = after,
            Err(refusal) => {
                return Reached {
                    ended: Err(refusal),
                    steps: i,
                    threads,
                };
            }
        }
    }
    let ended = if trace.len() % 2 == 0 {
        Ok(())
    } else {
        Err(Refusal::Thread)
    };
    Reached {
        ended,
        steps: trace.len() / 2,
        threads,
    }
}

// Runs the trace from the state `from`; `room` is how many writes there may be.
#[tactic(auto, using(crate::proofs::RunBranches::run_made, limits::proofs::BranchTests::tests))]
pub fn run_trace(image: &Indexed, sizes: Sizes, room: usize, from: Machine, trace: &[u8]) -> Run
    ensures { told result ≡ ran image.now sizes room from 0 trace.now }
{
    let mut table = from.memory.writes;
    let run = run_on(image, sizes, room, threads_of(from), trace, &mut table);
    Run {
        ended: run.ended,
        steps: run.steps,
        machine: machine_of(run.threads, &table),
    }
}

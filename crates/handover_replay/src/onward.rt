// The run under the new code, after one under the old code.
ghost use Rattle.std.specs.Prelude.{◌≡◌, ◌<◌, Ok};
ghost use Rattle.image.specs.Decode.{decoded};
ghost use Rattle.replay_machine.specs.Run.{told, ran};
ghost use Rattle.handover_replay.specs.JoinedRun.{most_steps, went_on};

use crate::mapped::hand_over;
use image_header::sizes::Sizes;
use image_index::indexed::Indexed;
use replay_machine::run::{Run, run_trace};
use replay_machine::state::Machine;

// Runs a trace; a trace has two bytes for a step, which bounds its steps so that those of two traces can be added.
#[tactic(auto, using(crate::proofs::JoinedBranches::steps_few, limits::proofs::BranchTests::tests))]
pub fn run_counted(
    image: &Indexed,
    sizes: Sizes,
    room: usize,
    machine: Machine,
    trace: &[u8],
) -> Run
    ensures { (told result ≡ ran image.now sizes room machine 0 trace.now) × (result.steps < most_steps) }
{
    run_trace(image, sizes, room, machine, trace)
}

// Hands over after `run`, the run under the old code, and runs the second trace; a step refused in the first ends the run there.
#[tactic(auto, using(crate::proofs::JoinedBranches::on_branches, limits::proofs::BranchTests::tests))]
pub fn go_on(
    old: &Indexed,
    old_sizes: Sizes,
    new: &Indexed,
    new_sizes: Sizes,
    points: &[u8],
    room: usize,
    run: Run,
    second: &[u8],
) -> Run
    requires { (decoded old.now ≡ Ok old_sizes) × (run.steps < most_steps) }
    ensures { told result ≡ went_on old.now old_sizes new.now new_sizes points.now room (told run)
        second.now }
{
    match run.ended {
        Err(_) => run,
        Ok(()) => {
            let handed = hand_over(old, old_sizes, points, run.machine);
            let after = run_counted(new, new_sizes, room, handed, second);
            Run {
                ended: after.ended,
                steps: run.steps + after.steps,
                machine: after.machine,
            }
        }
    }
}

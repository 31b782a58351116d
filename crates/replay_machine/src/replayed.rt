// A replay on an accepted image: the start, then the run.
ghost use Rattle.std.specs.Prelude.{◌≡◌};
ghost use Rattle.replay_machine.specs.Replayed.{told, room_of, replay_on};

use crate::pick::Refusal;
use crate::run::run_trace;
use crate::start::start_machine;
use crate::state::Machine;
use image_header::sizes::Sizes;
use image_index::indexed::Indexed;

// Numbers of the caller's table.
#[derive(Drop)]
pub struct Table {}

impl Table {
    // Entries past the 64th are never used.
    pub const MOST: usize = 64;
}

// `held` stands beside `words`, since the definition `replay_on` gives the number of words where the table stays, too.
// Why the replay ended, the steps taken and the state reached; whether the table is to be written, and how many words have rows there.
#[derive(Clone, Copy)]
pub struct Replayed {
    pub ended: Result<(), Refusal>,
    pub steps: usize,
    pub held: bool,
    pub words: u8,
    pub machine: Machine,
}

// How many entries are used at most, of a table that has `lent`.
#[tactic(auto, using(limits::proofs::BranchTests::tests), unfolding(crate::specs::Replayed::room_of))]
pub fn room_of(lent: usize) -> usize
    ensures { result ≡ room_of lent }
{
    lent.min(Table::MOST)
}

// Replays the trace on an accepted image; `room` is how many writes there may be. If the start writes do not fit, no step is taken.
#[tactic(auto, using(crate::proofs::ReplayedBranches::replay_on_branches, limits::proofs::BranchTests::tests))]
pub fn replay_on(image: &Indexed, sizes: Sizes, trace: &[u8], given: &[u8], room: usize) -> Replayed
    ensures { told result ≡ replay_on image.now sizes trace.now given.now room }
{
    let body = image.body_of(0);
    let n = start_machine(body, sizes.range, given);
    if room < usize::from(sizes.words) {
        return Replayed {
            ended: Err(Refusal::Room),
            steps: 0,
            held: false,
            words: sizes.words,
            machine: n,
        };
    }
    let run = run_trace(image, sizes, room, n, trace);
    let machine = run.machine;
    Replayed {
        ended: run.ended,
        steps: run.steps,
        held: true,
        words: sizes.words,
        machine,
    }
}

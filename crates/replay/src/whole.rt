// A whole replay: acceptance, the start, the run; and what is shown of it.
ghost use Rattle.std.specs.Prelude.{◌≡◌, ◌≤◌, min, length, replicate};
ghost use Rattle.image_index.specs.IndexTable.{table_size};
ghost use Rattle.replay_machine.specs.Replayed.{told};
ghost use Rattle.replay_machine.specs.OutputTable.{shown_by};
ghost use Rattle.replay_spec.specs.ReplayNumbers.{replay_of};

use checker::acceptance::accept_image;
use image_index::indexed::Indexed;
use image_index::table::IndexSize;
use replay_machine::output::{Shown, shown_by};
use replay_machine::pick::Refusal;
use replay_machine::replayed::{Replayed, replay_on, room_of};
use replay_machine::start::start_machine;

// The caller lends the index: memory is fixed, and a struct that lends it on would only rename the fact that it is zeros.
// Replays the trace; `index` is scratch memory that the caller passes as table_size(image) zeros, `lent` is how many entries its table has.
#[tactic(auto, using(crate::proofs::WholeBranches::replay_by_branches, limits::proofs::BranchTests::tests))]
fn replay_by(image: &[u8], index: &mut [usize], trace: &[u8], given: &[u8], lent: usize) -> Replayed
    requires { index.old ≡ replicate (table_size image.now) 0 }
    ensures { told result ≡ replay_of image.now trace.now given.now lent }
{
    match accept_image(image, index) {
        None => Replayed {
            ended: Err(Refusal::Declined),
            steps: 0,
            held: false,
            words: 0,
            machine: start_machine(&[], 0, &[]),
        },
        Some(sizes) => {
            let image = Indexed::new(image, index);
            replay_on(&image, sizes, trace, given, room_of(lent))
        }
    }
}

// Replays the trace; `lent` is how many entries the caller's table has. A short image gets a short index, which is cleared sooner.
#[tactic(auto, using(crate::proofs::WholeBranches::zeros))]
fn replay(image: &[u8], trace: &[u8], given: &[u8], lent: usize) -> Replayed
    ensures { told result ≡ replay_of image.now trace.now given.now lent }
{
    if image.len() <= IndexSize::SHORT_IMAGE {
        let mut index = [0usize; IndexSize::SHORT];
        return replay_by(image, &mut index, trace, given, lent);
    }
    let mut index = [0usize; IndexSize::LONG];
    replay_by(image, &mut index, trace, given, lent)
}

// What a replay shows to a caller whose table has `lent` entries.
#[tactic(auto, using(replay_machine::proofs::OutputBranches::shown_same, limits::proofs::BranchTests::tests))]
pub fn shown_of(image: &[u8], trace: &[u8], given: &[u8], lent: usize) -> Shown
    ensures { (result ≡ shown_by (replay_of image.now trace.now given.now lent) lent)
        × ((result.count ≤ min lent 64) × (length result.writes ≡ 64)) }
{
    shown_by(replay(image, trace, given, lent), lent)
}

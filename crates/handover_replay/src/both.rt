// A replay across a handover: whether it is permitted, the start, and both runs.
ghost use Rattle.std.specs.Prelude.{◌≡◌, ◌≤◌, min, length, replicate, Ok, Some};
ghost use Rattle.image_index.specs.IndexTable.{table_size};
ghost use Rattle.image.specs.Decode.{decoded};
ghost use Rattle.checker_spec.specs.Acceptance.{acceptance};
ghost use Rattle.handover_spec.specs.Refusal.{number as handover_number};
ghost use Rattle.replay_machine.specs.Refusal.{number};
ghost use Rattle.replay_machine.specs.Replayed.{told};
ghost use Rattle.replay_machine.specs.OutputTable.{shown_by};
ghost use Rattle.handover_replay.specs.ReplayAcross.{refused_by, across_on, across_by, by_acceptance, across_of};

use crate::onward::{go_on, run_counted};
use checker::acceptance::accept_image;
use handover::permit::handover_code;
use handover_spec::refusal::Refusal as HandoverRefusal;
use image_header::sizes::Sizes;
use image_index::indexed::Indexed;
use image_index::table::IndexSize;
use replay_machine::output::{Shown, shown_by};
use replay_machine::pick::Refusal;
use replay_machine::replayed::{Replayed, room_of};
use replay_machine::start::start_machine;

// What the caller gives: the table of points, the trace for each image, and a byte for each register.
#[derive(Clone, Copy)]
pub struct Given<'a> {
    pub points: &'a [u8],
    pub first: &'a [u8],
    pub second: &'a [u8],
    pub registers: &'a [u8],
}

// No `From`: Rust takes an impl only in the crate of one of the two enums, and neither is of this crate.
// A refused handover as a replay that is refused.
fn refusal_of(refusal: HandoverRefusal) -> Refusal
    ensures { number result ≡ handover_number refusal }
{
    match refusal {
        HandoverRefusal::Unlike => Refusal::Unlike,
        HandoverRefusal::OutOfRange => Refusal::OutOfRange,
        HandoverRefusal::Unserved => Refusal::Unserved,
    }
}

// A replay that is refused: points and registers are 0, and the table stays.
#[tactic(auto, using(crate::proofs::AcrossBranches::refused_so, limits::proofs::BranchTests::tests))]
fn refuse(refusal: Refusal) -> Replayed
    ensures { told result ≡ refused_by (number refusal) }
{
    Replayed {
        ended: Err(refusal),
        steps: 0,
        held: false,
        words: 0,
        machine: start_machine(&[], 0, &[]),
    }
}

// Runs both traces across a permitted handover; without room if the start writes do not fit.
#[tactic(auto, using(crate::proofs::AcrossBranches::both_branches, limits::proofs::BranchTests::tests))]
fn run_both(
    old: &Indexed,
    old_sizes: Sizes,
    new: &Indexed,
    new_sizes: Sizes,
    given: &Given,
    room: usize,
) -> Replayed
    requires { decoded old.now ≡ Ok old_sizes }
    ensures { told result ≡ across_on old.now old_sizes new.now new_sizes given.now.points.now given.now.first.now
        given.now.second.now
        given.now.registers.now room }
{
    let machine = start_machine(old.body_of(0), old_sizes.range, given.registers);
    if room < usize::from(old_sizes.words) {
        return Replayed {
            ended: Err(Refusal::Room),
            steps: 0,
            held: false,
            words: old_sizes.words,
            machine,
        };
    }
    let before = run_counted(old, old_sizes, room, machine, given.first);
    let run = go_on(
        old,
        old_sizes,
        new,
        new_sizes,
        given.points,
        room,
        before,
        given.second,
    );
    Replayed {
        ended: run.ended,
        steps: run.steps,
        held: true,
        words: old_sizes.words,
        machine: run.machine,
    }
}

// Replays across a handover between two accepted images, if it is permitted.
#[tactic(auto, using(crate::proofs::AcrossBranches::between_branches, limits::proofs::BranchTests::tests))]
fn replay_between(
    old: &Indexed,
    old_sizes: Sizes,
    new: &Indexed,
    new_sizes: Sizes,
    given: &Given,
    room: usize,
) -> Replayed
    requires { (decoded old.now ≡ Ok old_sizes) × (decoded new.now ≡ Ok new_sizes) }
    ensures { told result ≡ across_by old.now old_sizes new.now new_sizes given.now.points.now given.now.first.now
        given.now.second.now
        given.now.registers.now room }
{
    match handover_code(old, old_sizes, new, new_sizes, given.points) {
        Ok(()) => run_both(old, old_sizes, new, new_sizes, given, room),
        Err(refusal) => refuse(refusal_of(refusal)),
    }
}

// The caller lends the index: memory is fixed, and a struct that lends it on would only rename the fact that it is zeros.
// Replays from an accepted image, with `new_index` as scratch memory: zeros, table_size(new) of them.
#[tactic(auto, using(crate::proofs::AcrossBranches::from_branches, limits::proofs::BranchTests::tests))]
fn replay_from_by(
    old: &Indexed,
    sizes: Sizes,
    new: &[u8],
    new_index: &mut [usize],
    given: &Given,
    room: usize,
) -> Replayed
    requires { (decoded old.now ≡ Ok sizes) × (new_index.old ≡ replicate (table_size new.now) 0) }
    ensures { told result ≡ by_acceptance old.now new.now given.now.points.now given.now.first.now given.now.second.now
        given.now.registers.now room (Some sizes) (acceptance new.now) }
{
    let Some(new_sizes) = accept_image(new, new_index) else {
        return refuse(Refusal::Unlike);
    };
    let new = Indexed::new(new, new_index);
    replay_between(old, sizes, &new, new_sizes, given, room)
}

// Replays from an accepted image, whose sizes are known.
#[tactic(auto, using(handover_spec::proofs::PermittedRuns::zeros))]
fn replay_from(old: &Indexed, sizes: Sizes, new: &[u8], given: &Given, room: usize) -> Replayed
    requires { decoded old.now ≡ Ok sizes }
    ensures { told result ≡ by_acceptance old.now new.now given.now.points.now given.now.first.now given.now.second.now
        given.now.registers.now room (Some sizes) (acceptance new.now) }
{
    if new.len() <= IndexSize::SHORT_IMAGE {
        let mut new_index = [0usize; IndexSize::SHORT];
        return replay_from_by(old, sizes, new, &mut new_index, given, room);
    }
    let mut new_index = [0usize; IndexSize::LONG];
    replay_from_by(old, sizes, new, &mut new_index, given, room)
}

// Replays with `old_index` as scratch memory: zeros, table_size(old) of them.
#[tactic(auto, using(crate::proofs::AcrossBranches::across_branches, limits::proofs::BranchTests::tests))]
fn replay_across_by(
    old: &[u8],
    old_index: &mut [usize],
    new: &[u8],
    given: &Given,
    lent: usize,
) -> Replayed
    requires { old_index.old ≡ replicate (table_size old.now) 0 }
    ensures { told result ≡ across_of old.now new.now given.now.points.now given.now.first.now given.now.second.now
        given.now.registers.now lent }
{
    match accept_image(old, old_index) {
        None => refuse(Refusal::Unlike),
        Some(sizes) => {
            let old = Indexed::new(old, old_index);
            replay_from(&old, sizes, new, given, room_of(lent))
        }
    }
}

// Replays both traces; `lent` is the number of entries in the caller's table of writes.
#[tactic(auto, using(handover_spec::proofs::PermittedRuns::zeros))]
pub fn replay_across(old: &[u8], new: &[u8], given: &Given, lent: usize) -> Replayed
    ensures { told result ≡ across_of old.now new.now given.now.points.now given.now.first.now given.now.second.now
        given.now.registers.now lent }
{
    if old.len() <= IndexSize::SHORT_IMAGE {
        let mut old_index = [0usize; IndexSize::SHORT];
        return replay_across_by(old, &mut old_index, new, given, lent);
    }
    let mut old_index = [0usize; IndexSize::LONG];
    replay_across_by(old, &mut old_index, new, given, lent)
}

// The answer of the replay, and the writes for the caller's table of `lent` entries.
#[tactic(auto, using(replay_machine::proofs::OutputBranches::shown_same, limits::proofs::BranchTests::tests))]
pub fn shown_across(old: &[u8], new: &[u8], given: &Given, lent: usize) -> Shown
    ensures { (result ≡ shown_by (across_of old.now new.now given.now.points.now given.now.first.now
        given.now.second.now given.now.registers.now lent) lent) × ((result.count ≤ min lent 64) × (length result.writes ≡ 64)) }
{
    shown_by(replay_across(old, new, given, lent), lent)
}

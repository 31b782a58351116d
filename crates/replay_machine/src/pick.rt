// Whether a step may be taken: its position, and room for a write.
ghost use Rattle.std.specs.Prelude.{◌≡◌, ◌≤◌, ◌*◌};
ghost use Rattle.replay_machine.specs.Refusal.{unnamed, number, code_of, total, adding};
ghost use Rattle.replay_machine.specs.Pick.{refusal_by};

use crate::effect::Effect;
use crate::shared::may_pick;
use image_header::instruction::Instruction;
use replay_memory::memory::{Memory, MemoryShape, first_of};
use replay_memory::write::Write;

// Why a replay ends before its trace does, or is not begun.
#[derive(Clone, Copy, PartialEq, Eq)]
pub enum Refusal {
    // The image is not accepted.
    Declined,
    // The thread is absent or at its last point, or the trace ends with half a step.
    Thread,
    // The position is not permitted.
    Pick,
    // No entry is left for a write.
    Room,
    // An image of a handover is not accepted, or the two are unlike.
    Unlike,
    // The table of a handover is too short, too long or somewhere out of range.
    OutOfRange,
    // A line that the table of a handover names does not serve.
    Unserved,
    // Another reason, by the place of its number among those that no case above has. No step and no replay gives it: the run of a caller
    // may have ended with it, so that every code of one byte can be told, and each by one case alone.
    Other(u8),
}

impl From<Refusal> for u16 {
    ghost from_gives = { λ refusal code. code ≡ number refusal };

    // Its number on the page.
    fn from(refusal: Refusal) -> u16 {
        match refusal {
            Refusal::Declined => 24,
            Refusal::Thread => 27,
            Refusal::Pick => 28,
            Refusal::Room => 29,
            Refusal::Unlike => 32,
            Refusal::OutOfRange => 33,
            Refusal::Unserved => 34,
            Refusal::Other(place) => unnamed(place),
        }
    }
}

// The code of what is refused, 0 where nothing is.
pub fn code_of(ended: Result<(), Refusal>) -> u16
    ensures { result ≡ code_of ended }
{
    match ended {
        Ok(()) => 0,
        Err(refusal) => u16::from(refusal),
    }
}

// The number at this place among those that no named case has.
#[tactic(auto, using(limits::proofs::BranchTests::tests), unfolding(crate::specs::Refusal::unnamed))]
fn unnamed(place: u8) -> u16
    ensures { result ≡ unnamed place }
{
    let place = u16::from(place);
    match place {
        0..23 => place + 1,
        23 | 24 => place + 2,
        25 | 26 => place + 5,
        _ => place + 8,
    }
}

// How a run has ended that ended with this code. Each code is that of one end alone.
#[tactic(auto, using(crate::proofs::RefusalNumbers::ends_by_code))]
pub fn ended_by(code: u8) -> Result<(), Refusal>
    ensures { code_of result ≡ code }
{
    match code {
        0 => Ok(()),
        24 => Err(Refusal::Declined),
        27 => Err(Refusal::Thread),
        28 => Err(Refusal::Pick),
        29 => Err(Refusal::Room),
        32 => Err(Refusal::Unlike),
        33 => Err(Refusal::OutOfRange),
        34 => Err(Refusal::Unserved),
        1..=23 => Err(Refusal::Other(code - 1)),
        25..=26 => Err(Refusal::Other(code - 2)),
        30..=31 => Err(Refusal::Other(code - 5)),
        _ => Err(Refusal::Other(code - 8)),
    }
}

// How many writes the first `words` rows have.
pub fn total_of(memory: Memory, words: u8) -> usize
    ensures { (result ≡ total memory words) × (result ≤ words * 255) }
{
    first_of(&memory.sizes, words)
}

// The operation adds a write.
#[tactic(auto, using(limits::proofs::BranchTests::tests), unfolding(crate::specs::Refusal::adding))]
pub fn is_adding(operation: u8) -> bool
    ensures { result ≡ adding operation }
{
    Instruction::ACQUIRE < operation
        && operation != Instruction::BRANCH
        && operation != Instruction::ASSIGN_TWO
}

// `effect`, `t` and `position` come from the image and from two bytes of the trace, so a struct of them would be made for a single call.
// Whether thread `t` may take a step with this effect at `position`, whose write is `picked`. `room` is how many writes there may be.
#[tactic(auto, using(crate::proofs::StepBranches::pick_refusal_branches, limits::proofs::BranchTests::tests))]
pub fn pick_refusal(
    shape: MemoryShape,
    picked: Write,
    words: u8,
    room: usize,
    effect: Effect,
    t: u8,
    position: u8,
) -> Result<(), Refusal>
    ensures { code_of result ≡ refusal_by shape picked words room effect t position }
{
    if !may_pick(shape, picked, effect, t, position) {
        return Err(Refusal::Pick);
    }
    if is_adding(effect.operation) && room <= first_of(&shape.sizes, words) {
        return Err(Refusal::Room);
    }
    Ok(())
}

// The answer of a replay, and the same as numbers.
ghost use Rattle.std.specs.Prelude.{◌≡◌, ◌++◌, ◌≤◌, length, get_or, drop};
ghost use Rattle.replay_machine.specs.Replayed.{told};
ghost use Rattle.replay_machine.specs.Answer.{size, answer_of, numbers_of};

use crate::pick::code_of;
use crate::replayed::Replayed;

// `code` is a number, since the clauses of `replay_into` and `replay_trace` (`Promise`, `Written`) state it as the page does.
// The code, the steps taken, the points of threads 1 to 4, registers 1 to 16; 0 for those that are not there.
#[derive(Clone, Copy)]
pub struct Answer {
    pub code: u16,
    pub steps: usize,
    pub points: [u8; 4],
    pub registers: [u8; 16],
}

impl Answer {
    // How many numbers the answer has, besides the code.
    pub const SIZE: usize = 21;
}

// `answer_by` of replay_run is the same for another struct; one function for both would take the four fields, so neither would be shorter.
// The answer of a replay.
#[tactic(auto, using(limits::proofs::BranchTests::tests), unfolding(crate::specs::Answer::answer_of, crate::specs::Replayed::told))]
pub fn answer_of(replayed: Replayed) -> Answer
    ensures { result ≡ answer_of (told replayed) }
{
    let points = replayed.machine.points;
    let registers = replayed.machine.registers.at;
    Answer {
        code: code_of(replayed.ended),
        steps: replayed.steps,
        points,
        registers,
    }
}

// Number `i` of the answer: the steps, then the points, then the registers.
#[tactic(auto, using(crate::proofs::OutputBranches::number_at_branches, limits::proofs::BranchTests::tests))]
fn number_at(answer: Answer, i: usize) -> usize
    ensures { result ≡ get_or (numbers_of answer) i 0 }
{
    match i {
        0 => answer.steps,
        1..5 => usize::from(answer.points[i - 1]),
        5..Answer::SIZE => usize::from(answer.registers[i - 5]),
        _ => 0,
    }
}

// Writes the answer's numbers to the front of `room`; the numbers after them stay.
#[tactic(auto, using(crate::proofs::OutputBranches::copies))]
pub fn write_numbers(answer: Answer, room: &mut [usize])
    requires { size ≤ length room.old }
    ensures { room.new ≡ numbers_of answer ++ drop size room.old }
{
    for i in 0..Answer::SIZE {
        room[i] = number_at(answer, i);
    }
}

// The numbers of a bill or a replay that is refused to a caller.
ghost use Rattle.std.specs.Prelude.{◌≡◌, ◌++◌, cond, length, drop, nat_lt};
ghost use Rattle.bill_spec.specs.Output as Billed;
ghost use Rattle.replay_machine.specs.Answer as Replayed;
ghost use Rattle.service_spec.specs.Request.{cleared};

use bill_spec::numbers::Numbers;
use replay_machine::answer::Answer;

// Writes the numbers to the front of `answer`; one that is too short for them stays, and so do the numbers behind.
fn write_front<T: Copy>(numbers: &[T], answer: &mut [T])
    ensures { answer.new ≡ cond (nat_lt (length answer.old) (length numbers.now)) answer.old
        (numbers.now ++ drop (length numbers.now) answer.old) }
{
    if numbers.len() <= answer.len() {
        answer[..numbers.len()].copy_from_slice(numbers);
    }
}

// Sets the numbers of a refused bill to 0; an `answer` that is too short for them stays.
#[tactic(auto, using(service_spec::proofs::ReplyBranches::zeros_cleared))]
pub fn clear_bill(answer: &mut [u32])
    ensures { answer.new ≡ cleared Billed.size answer.old }
{
    write_front(&[0; Numbers::SIZE], answer);
}

// Sets the numbers of a refused replay to 0; an `answer` that is too short for them stays.
#[tactic(auto, using(service_spec::proofs::ReplyBranches::zeros_cleared))]
pub fn clear_replay(answer: &mut [usize])
    ensures { answer.new ≡ cleared Replayed.size answer.old }
{
    write_front(&[0; Answer::SIZE], answer);
}

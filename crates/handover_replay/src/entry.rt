// The entry point `replay_handover`, for C and Rust.
ghost use Rattle.handover_replay.specs.Promise.{Written};

use crate::both::{Given, shown_across};
use replay_machine::answer::{Answer, write_numbers};
use replay_machine::table_bytes::{Entry, write_shown};
use verdict_record::output::Output;

// The parameters are those of the C interface, include/hidokpalu.h.
// Replays the trace `first` on the machine of the old image, hands over by the table `points` and goes on with the trace `second` on the
// machine of the new image, with the same memory. `answer` and `table` are written as by `replay_trace`; 32, 33 and 34 take the place of
// 24. A step refused in the first trace ends the run under the old code.
#[tactic(auto, using(crate::proofs::AcrossPromised::written_branches, limits::proofs::BranchTests::tests))]
#[unsafe(no_mangle)]
pub extern "C" fn replay_handover(
    old: &[u8],
    new: &[u8],
    points: &[u8],
    first: &[u8],
    second: &[u8],
    given: &[u8],
    table: &mut [u8],
    answer: &mut [usize],
) -> u16
    ensures { Written old.now new.now points.now first.now second.now
        given.now table.old answer.old result table.new answer.new }
{
    if answer.len() < Answer::SIZE {
        return Output::SHORT;
    }
    let given = Given {
        points,
        first,
        second,
        registers: given,
    };
    let shown = shown_across(old, new, &given, table.len() / Entry::SIZE);
    write_numbers(shown.answer, answer);
    write_shown(shown, table);
    shown.answer.code
}

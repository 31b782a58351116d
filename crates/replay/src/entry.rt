// The entry point, for C and Rust.
ghost use Rattle.replay_spec.specs.Promise.{Written};

use crate::whole::shown_of;
use replay_machine::answer::{Answer, write_numbers};
use replay_machine::table_bytes::{Entry, write_shown};
use verdict_record::output::Output;

// The parameters are those of the C interface, include/hidokpalu.h.
// Replays a trace on the machine of an accepted image, and writes the state reached: the steps, points and registers to `answer`, the
// writes to `table`; the code is returned. If `answer` has room for fewer than 21 numbers, it and the table stay, and 1 is returned.
#[tactic(auto, using(replay_spec::proofs::ReplayPromised::written_branches, limits::proofs::BranchTests::tests))]
#[unsafe(no_mangle)]
pub extern "C" fn replay_trace(
    image: &[u8],
    trace: &[u8],
    given: &[u8],
    table: &mut [u8],
    answer: &mut [usize],
) -> u16
    ensures { Written image.now trace.now given.now table.old answer.old result
        table.new answer.new }
{
    if answer.len() < Answer::SIZE {
        return Output::SHORT;
    }
    let shown = shown_of(image, trace, given, table.len() / Entry::SIZE);
    write_numbers(shown.answer, answer);
    write_shown(shown, table);
    shown.answer.code
}

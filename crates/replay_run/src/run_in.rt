// The run over the caller's table, in place: in each turn one entry is read and at most one write is inserted.
ghost use Rattle.std.specs.Prelude.{◌≡◌};
ghost use Rattle.replay_run.specs.Course.{told};
ghost use Rattle.replay_run.specs.RunIn.{run_to};

use crate::course::Course;
use crate::next_turn::next_turn;
use crate::turn::take_turn;
use image_index::indexed::Indexed;
use replay_memory::write::{Write, start_write};
use replay_table::table::{insert, read};

// A turn leaves less by one, by two or by all, so a `for` over the most turns would need a `break` and be no plainer than this `while`.
// Runs the trace from `start` on; the table has the writes of the state reached.
pub fn run_in(image: &Indexed, trace: &[u8], start: Course, table: &mut [Write]) -> Course
    ensures { (table.new, told result) ≡ run_to image.now trace.now start.left (table.old, told start) }
{
    let none = start_write(0);
    let mut course = start;
    while 0 < course.left {
        let turn = next_turn(image, trace, course);
        let picked = read(table, turn.entry(), none);
        let after = take_turn(course, turn, picked);
        insert(after.order, table);
        course = after;
    }
    course
}

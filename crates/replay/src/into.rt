// The caller's table as a slice of write structs, the form that the scope page names: the run works on it, in place.
ghost use Rattle.std.specs.Prelude.{◌≡◌, replicate};
ghost use Rattle.image_index.specs.IndexTable.{table_size};
ghost use Rattle.replay_spec.specs.Promise.{Into};

use crate::opening::open_replay;
use image_index::indexed::Indexed;
use image_index::table::IndexSize;
use replay_machine::answer::Answer;
use replay_memory::write::Write;
use replay_run::course::answer_by;
use replay_run::run_in::run_in;

// The caller lends the index: memory is fixed, and a struct that lends it on would only rename the fact that it is zeros.
// Replays with `index` as scratch memory: zeros, table_size(image) of them.
fn replay_in(
    image: &[u8],
    index: &mut [usize],
    trace: &[u8],
    given: &[u8],
    table: &mut [Write],
) -> Answer
    requires { index.old ≡ replicate (table_size image.now) 0 }
    ensures { Into image.now trace.now given.now table.old result table.new }
{
    let start = open_replay(image, index, trace, given, table.len());
    let image = Indexed::new(image, index);
    let end = run_in(&image, trace, start, table);
    answer_by(end)
}

// Replays a trace on the machine of an accepted image and returns the answer; the table ends holding the writes of the state reached. A
// short image gets a short index, which is cleared sooner.
pub fn replay_into(image: &[u8], trace: &[u8], given: &[u8], table: &mut [Write]) -> Answer
    ensures { Into image.now trace.now given.now table.old result table.new }
{
    if image.len() <= IndexSize::SHORT_IMAGE {
        let mut index = [0usize; IndexSize::SHORT];
        return replay_in(image, &mut index, trace, given, table);
    }
    let mut index = [0usize; IndexSize::LONG];
    replay_in(image, &mut index, trace, given, table)
}

// The state of a run without its writes, which are in the caller's table.
ghost use Rattle.std.specs.Prelude.{◌≡◌, length};
ghost use Rattle.replay_run.specs.Course.{told, start_threads, opened_on, answer_by};

use image_header::sizes::Sizes;
use image_index::indexed::Indexed;
use replay_machine::answer::Answer;
use replay_machine::pick::{Refusal, code_of};
use replay_machine::start::start_registers;
use replay_machine::state::Threads;
use replay_memory::memory::MemoryShape;
use replay_memory::view::start_view;
use replay_table::order::{Order, no_order};

// The counts of the image, how many writes there may be, why the run was refused, if it was; the steps taken; what is left: the start
// writes that are not yet inserted, then the bytes of the trace, 0 when the run has ended; the start writes inserted; the state of the
// threads; the write that is to be inserted.
#[derive(Clone, Copy)]
pub struct Course {
    pub sizes: Sizes,
    pub room: usize,
    pub ended: Result<(), Refusal>,
    pub steps: usize,
    pub left: usize,
    pub begun: u8,
    pub threads: Threads,
    pub order: Order,
}

// The threads at the start, by the header's body: a write in each row, all views on these, every thread at point 0.
#[tactic(auto, using(crate::proofs::TurnBranches::threads_made, limits::proofs::BranchTests::tests))]
pub fn start_threads(body: &[u8], range: u8, given: &[u8]) -> Threads
    ensures { result ≡ start_threads body.now range given.now }
{
    let view = start_view();
    Threads {
        shape: MemoryShape {
            sizes: [1; 8],
            views: [view; 4],
        },
        registers: start_registers(body, range, given),
        points: [0; 4],
    }
}

// The start of a run on an accepted image; `room` is how many writes there may be. If the start writes do not fit, it has ended.
#[tactic(auto, using(crate::proofs::TurnBranches::open_on_branches, limits::proofs::BranchTests::tests))]
pub fn open_on(image: &Indexed, sizes: Sizes, trace: &[u8], given: &[u8], room: usize) -> Course
    ensures { told result ≡ opened_on image.now sizes (length trace.now) given.now room }
{
    let threads = start_threads(image.body_of(0), sizes.range, given);
    if room < usize::from(sizes.words) {
        return Course {
            sizes,
            room,
            ended: Err(Refusal::Room),
            steps: 0,
            left: 0,
            begun: 0,
            threads,
            order: no_order(),
        };
    }
    Course {
        sizes,
        room,
        ended: Ok(()),
        steps: 0,
        left: usize::from(sizes.words) + trace.len(),
        begun: 0,
        threads,
        order: no_order(),
    }
}

// `answer_of` of replay_machine is the same for another struct; one function for both would take four fields, so neither would be shorter.
// The answer of a run.
#[tactic(auto, using(limits::proofs::BranchTests::tests), unfolding(crate::specs::Course::answer_by))]
pub fn answer_by(course: Course) -> Answer
    ensures { result ≡ answer_by (told course) }
{
    let points = course.threads.points;
    let registers = course.threads.registers.at;
    Answer {
        code: code_of(course.ended),
        steps: course.steps,
        points,
        registers,
    }
}

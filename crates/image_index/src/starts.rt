// The positions at which the instructions of each thread begin. An instruction has five or ten bytes, so they depend on those before it.
ghost use Rattle.std.specs.Prelude.{◌≡◌, ◌+◌, ◌≤◌, ◌<◌, min, length};
ghost use Rattle.image_header.specs.Thread.{last_point};
ghost use Rattle.image_index.specs.IndexTable.{is_thread, first_from, row_of, rows_to};

use crate::walk::{body_at, next_start};
use image_frames::kind::Kind;
use image_header::thread::{begins_behind, last_point};
use limits::Limits;
use limits::read::u16_at;

// The first thread's record: how many records there are before it, and where it starts.
#[derive(Clone, Copy)]
pub struct FirstThread {
    pub number: usize,
    pub position: usize,
}

// Whether the record at `at` is a thread's.
#[tactic(auto, using(crate::proofs::IndexBranches::thread_is, limits::proofs::BranchTests::tests))]
fn is_thread(image: &[u8], at: usize) -> bool
    requires { at < length image.now }
    ensures { result ≡ is_thread image.now at }
{
    u16_at(image, at + 2) == Kind::THREAD
}

// Finds the first thread's record among the first `n` records; without one, the record after them or the image's end.
#[tactic(auto, using(crate::proofs::IndexBranches::first_thread_branches, limits::proofs::BranchTests::tests))]
pub fn first_thread(image: &[u8], n: usize) -> FirstThread
    ensures { result ≡ first_from image.now 0 0 n }
{
    let mut position = 0;
    for number in 0..n {
        if image.len() <= position || is_thread(image, position) {
            return FirstThread { number, position };
        }
        position = next_start(image, position);
    }
    FirstThread {
        number: n,
        position,
    }
}

// The number of instructions of a thread's body that the table has entries for.
fn row_length(body: &[u8]) -> usize
    ensures { (result ≡ min 16 (last_point body.now)) × (result ≤ 16) }
{
    last_point(body).min(Limits::POINTS)
}

// Writes where the instructions of one thread begin, into the 16 entries from `from` on.
#[tactic(auto, using(crate::proofs::IndexBranches::fill_row_search))]
fn fill_row<'a, 'b>(body: &'a [u8], index: &'b mut [usize], from: usize)
    requires { from + 16 ≤ length index.old }
    ensures { index.new ≡ row_of index.old from body.now }
{
    let mut at = 0;
    for p in 0..row_length(body) {
        index[from + p] = at;
        at = begins_behind(body, p, at);
    }
}

// Writes the entries of four threads, whose records follow one another from `position` on.
#[tactic(auto, using(crate::proofs::IndexBranches::fill_rows_branches, limits::proofs::BranchTests::tests))]
pub fn fill_rows<'a, 'b>(image: &'a [u8], index: &'b mut [usize], from: usize, position: usize)
    requires { from + 64 ≤ length index.old }
    ensures { index.new ≡ rows_to image.now index.old from position 4 }
{
    let mut at = position;
    for j in 0..Limits::THREADS {
        fill_row(body_at(image, at), index, from + Limits::POINTS * j);
        at = next_start(image, at);
    }
}

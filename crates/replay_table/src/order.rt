// A write that is to be inserted, and what the insertion does to one entry of the table.
ghost use Rattle.std.specs.Prelude.{◌≡◌, suc, eqb};
ghost use Rattle.replay_memory.specs.Write.{up_write};
ghost use Rattle.replay_table.specs.Sweep.{no_order, start_order, cover_at, turn_of, visits};

use replay_memory::view::up_view;
use replay_memory::write::{Write, start_write};

// An insertion: `write` goes to entry `at`, behind position `behind` of word `word`; `count` is how many entries are in use afterwards,
// 0 if nothing is to be inserted. If `covers` is set, the write before it is covered.
#[derive(Clone, Copy)]
pub struct Order {
    pub count: usize,
    pub at: usize,
    pub word: u8,
    pub behind: u8,
    pub covers: bool,
    pub write: Write,
}

// Nothing is to be inserted.
pub fn no_order() -> Order
    ensures { result ≡ no_order }
{
    Order {
        count: 0,
        at: 0,
        word: 0,
        behind: 0,
        covers: false,
        write: start_write(0),
    }
}

// The start write of the word with index `x`, behind those of the words before it. No view names a write behind position 255, so all
// views stay.
pub fn start_order(x: u8, value: u8) -> Order
    ensures { result ≡ start_order x value }
{
    Order {
        count: usize::from(x) + 1,
        at: usize::from(x),
        word: x,
        behind: 255,
        covers: false,
        write: start_write(value),
    }
}

// What one entry is given, and the write that is carried on to the next entry.
#[derive(Clone, Copy)]
pub struct Turn {
    pub put: Write,
    pub next: Write,
}

// The write after an insertion behind `position` of word `x`: its stored view keeps its writes.
#[tactic(auto, using(crate::proofs::SweepBranches::raise_write))]
fn raised(write: Write, x: u8, position: u8) -> Write
    ensures { result ≡ up_write x position write }
{
    let stored = up_view(write.stored, x, position);
    Write { stored, ..write }
}

// Entry `at` is the one after entry `i`.
#[tactic(auto, using(crate::proofs::SweepBranches::is_next_branches, limits::proofs::BranchTests::tests))]
fn is_next(i: usize, at: usize) -> bool
    ensures { result ≡ eqb at (suc i) }
{
    i < at && at - i == 1
}

// The write of entry `i` before an insertion: covered if that is ordered and the new write goes directly behind it.
#[tactic(auto, using(crate::proofs::SweepBranches::covered_by_branches, limits::proofs::BranchTests::tests))]
fn covered_by(order: Order, i: usize, write: Write) -> Write
    ensures { result ≡ cover_at order i write }
{
    if order.covers && is_next(i, order.at) {
        Write {
            covered: true,
            ..write
        }
    } else {
        write
    }
}

// The turn of entry `i`, which has `old`, in a sweep that carries `carried`: before the place it keeps its write, from it on it takes the
// carried one; stored views keep their writes.
#[tactic(auto, using(limits::proofs::BranchTests::tests, crate::proofs::SweepBranches::turn_at_branches))]
pub fn turn_at(order: Order, i: usize, carried: Write, old: Write) -> Turn
    ensures { result ≡ turn_of order i carried old }
{
    if i < order.at {
        return Turn {
            put: raised(covered_by(order, i, old), order.word, order.behind),
            next: carried,
        };
    }
    Turn {
        put: carried,
        next: raised(old, order.word, order.behind),
    }
}

// How many entries a sweep visits: those in use afterwards, as far as there are entries.
#[tactic(auto, using(crate::proofs::SweepBranches::visits_least, limits::proofs::BranchTests::tests))]
pub fn visited(order: Order, entries: usize) -> usize
    ensures { result ≡ visits order entries }
{
    order.count.min(entries)
}

// What loads, stores and swaps do to sizes and views, and the write that they insert, from the write that they pick. Threads (`t`), words
// (`x`) and positions count from 0.
ghost use Rattle.std.specs.Prelude.{◌≡◌, true, false};
ghost use Rattle.replay_table.specs.Change.{unchanged, loaded_by, new_write, insertion, grown_by, stored_by, swapped_by};

use crate::order::{Order, no_order};
use replay_memory::access::{read_view, swap_view};
use replay_memory::insert::grow;
use replay_memory::memory::{MemoryShape, first_of, index_of, view_of, with_view};
use replay_memory::view::{View, next, with_position};
use replay_memory::write::Write;

// Sizes and views after an access, and the write that is to be inserted.
#[derive(Clone, Copy)]
pub struct Change {
    pub shape: MemoryShape,
    pub order: Order,
}

// Nothing changes.
pub fn unchanged(shape: MemoryShape) -> Change
    ensures { result ≡ unchanged shape }
{
    Change {
        shape,
        order: no_order(),
    }
}

// Thread `t` loads `write`, which is at `position` of word `x`: only its view changes.
#[tactic(auto, using(crate::proofs::ChangeBranches::load_made, limits::proofs::BranchTests::tests))]
pub fn load(shape: MemoryShape, write: Write, acquires: bool, t: u8, x: u8, position: u8) -> Change
    ensures { result ≡ loaded_by shape write acquires t x position }
{
    let view = read_view(write, view_of(shape, t), acquires, x, position);
    unchanged(with_view(shape, t, view))
}

// A new write behind `position` of word `x`, from `view`: the view moves to it, and that view is stored with it.
#[tactic(auto, using(crate::proofs::ChangeBranches::write_made, limits::proofs::BranchTests::tests))]
fn new_write(releasing: bool, value: u8, view: View, x: u8, position: u8) -> Write
    ensures { result ≡ new_write releasing value view x position }
{
    let stored = with_position(view, x, next(position));
    Write {
        value,
        releasing,
        covered: false,
        stored,
    }
}

// The insertion of a write behind `position` of word `x`; the first `words` words have entries in the table.
#[tactic(auto, using(crate::proofs::ChangeBranches::order_made, limits::proofs::BranchTests::tests))]
fn insertion(
    shape: MemoryShape,
    words: u8,
    x: u8,
    position: u8,
    covers: bool,
    write: Write,
) -> Order
    ensures { result ≡ insertion shape words x position covers write }
{
    let sizes = shape.sizes;
    Order {
        count: first_of(&sizes, words) + 1,
        at: index_of(&sizes, x, next(position)),
        word: x,
        behind: position,
        covers,
        write: write,
    }
}

// Thread `t` inserts a write behind `position` of word `x`: its view is the one stored with the write, and the other views keep their
// writes.
#[tactic(auto, using(crate::proofs::ChangeBranches::grow_made, limits::proofs::BranchTests::tests))]
fn grow_by(
    shape: MemoryShape,
    words: u8,
    t: u8,
    x: u8,
    position: u8,
    covers: bool,
    write: Write,
) -> Change
    ensures { result ≡ grown_by shape words t x position covers write }
{
    Change {
        shape: with_view(grow(shape, x, position), t, write.stored),
        order: insertion(shape, words, x, position, covers, write),
    }
}

// A word, a value and a place in its row come from an effect and a trace; callees take other two of them: a struct would be taken apart.
// Thread `t` stores `value` behind `position` of word `x`, from its own view.
#[tactic(auto, using(crate::proofs::ChangeBranches::store_made, limits::proofs::BranchTests::tests))]
pub fn store(
    shape: MemoryShape,
    words: u8,
    releasing: bool,
    x: u8,
    value: u8,
    t: u8,
    position: u8,
) -> Change
    ensures { result ≡ stored_by shape words releasing x value t position }
{
    let write = new_write(releasing, value, view_of(shape, t), x, position);
    grow_by(shape, words, t, x, position, false, write)
}

// Thread `t` swaps `value` into word `x`: a releasing store that also covers the write that it picks.
#[tactic(auto, using(crate::proofs::ChangeBranches::swap_made, limits::proofs::BranchTests::tests))]
pub fn swap(
    shape: MemoryShape,
    words: u8,
    picked: Write,
    x: u8,
    value: u8,
    t: u8,
    position: u8,
) -> Change
    ensures { result ≡ swapped_by shape words picked x value t position }
{
    let view = swap_view(picked, view_of(shape, t));
    let write = new_write(true, value, view, x, position);
    grow_by(shape, words, t, x, position, true, write)
}

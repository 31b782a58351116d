// What loads, stores and swaps do to the memory. Threads (`t`), words (`x`) and positions count from 0.
#![tactic(auto, using(crate::proofs::AccessBranches::accesses))]

ghost use Rattle.std.specs.Prelude.{◌≡◌, true};
ghost use Rattle.replay_memory.specs.Memory.{memory_of};
ghost use Rattle.replay_memory.specs.Access.{read_from, loaded, put, stored, swap_from, swapped};

use crate::insert::insert;
use crate::memory::{MemoryShape, cover, view_of, with_view, write_at};
use crate::view::{View, join, next, with_position};
use crate::write::Write;
use crate::write_table::Places;

// The view after a load of `write`: if it acquires and the write is releasing, the stored view is joined in; else only that word moves.
pub fn read_view(write: Write, view: View, acquires: bool, x: u8, position: u8) -> View
    ensures { result ≡ read_from write view acquires x position }
{
    if acquires && write.releasing {
        join(view, write.stored)
    } else {
        with_position(view, x, position)
    }
}

// Thread `t` loads the write at `position` of word `x`: only its view changes.
pub fn load(
    table: &[Write; Places::COUNT],
    shape: MemoryShape,
    acquires: bool,
    t: u8,
    x: u8,
    position: u8,
) -> MemoryShape
    ensures { memory_of result table.now ≡ loaded (memory_of shape table.now) acquires t x position }
{
    let write = write_at(table, shape, x, position);
    with_view(
        shape,
        t,
        read_view(write, view_of(shape, t), acquires, x, position),
    )
}

// A word, a value and a place in its row come from an effect and a trace; callees take other two of them: a struct would be taken apart.
// Inserts a write behind `position` of word `x`, by thread `t` from `view`: the view moves to it, and that view is stored with it.
fn put(
    shape: MemoryShape,
    releasing: bool,
    x: u8,
    value: u8,
    t: u8,
    position: u8,
    view: View,
    table: &mut [Write; Places::COUNT],
) -> MemoryShape
    ensures { memory_of result table.new ≡ put (memory_of shape table.old) releasing x value t position view }
{
    let stored = with_position(view, x, next(position));
    let write = Write {
        value,
        releasing,
        covered: false,
        stored,
    };
    with_view(insert(shape, x, position, write, table), t, stored)
}

// Thread `t` stores `value` behind `position` of word `x`, from its own view.
pub fn store(
    shape: MemoryShape,
    releasing: bool,
    x: u8,
    value: u8,
    t: u8,
    position: u8,
    table: &mut [Write; Places::COUNT],
) -> MemoryShape
    ensures { memory_of result table.new ≡ stored (memory_of shape table.old) releasing x value t position }
{
    put(
        shape,
        releasing,
        x,
        value,
        t,
        position,
        view_of(shape, t),
        table,
    )
}

// The view from which a swap that picks `write` writes: if the write is releasing, its stored view is joined in.
pub fn swap_view(write: Write, view: View) -> View
    ensures { result ≡ swap_from write view }
{
    if write.releasing {
        join(view, write.stored)
    } else {
        view
    }
}

// Thread `t` swaps `value` into word `x`: a releasing store that also covers the picked write.
pub fn swap(
    shape: MemoryShape,
    x: u8,
    value: u8,
    t: u8,
    position: u8,
    table: &mut [Write; Places::COUNT],
) -> MemoryShape
    ensures { memory_of result table.new ≡ swapped (memory_of shape table.old) x value t position }
{
    let write = write_at(table, shape, x, position);
    let view = swap_view(write, view_of(shape, t));
    cover(shape, x, position, table);
    put(shape, true, x, value, t, position, view, table)
}

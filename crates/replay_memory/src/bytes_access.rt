// What steps do to the table of writes of a caller that keeps it as bytes, as a device does: all writes are read, changed as the
// function of the same name on writes changes them, and laid out again where they were changed, each mark as 0 or 1. Threads (`t`),
// words (`x`) and positions count from 0.

ghost use Rattle.std.specs.Prelude.{◌≡◌, ◌<◌, length};
ghost use Rattle.replay_memory.specs.WriteTable.{raised_all, moved_up};
ghost use Rattle.replay_memory.specs.Memory.{write_at, covering};
ghost use Rattle.replay_memory.specs.Insert.{inserted};
ghost use Rattle.replay_memory.specs.Access.{loaded, stored, swapped};
ghost use Rattle.replay_memory.specs.Bytes.{writes_in, memory_in};

use crate::bytes::{TableBytes, lay_out, writes_in};
use crate::memory::MemoryShape;
use crate::write::Write;
use crate::{access, insert, memory, write_table};

// Adjusts every stored view to an insertion behind `position` of word `x`, so that it keeps its write.
pub fn raise_all(x: u8, position: u8, table: &mut [u8; TableBytes::COUNT])
    ensures table_after { writes_in table.new ≡ raised_all (writes_in table.old) x position }
    ensures table_len { length table.new ≡ 792 }
{
    let mut writes = writes_in(table);
    write_table::raise_all(x, position, &mut writes);
    lay_out(&writes, table);
}

// Moves the writes after place `picked` up by one. Place `picked` + 1 is then free for a new write; the write in the last place is dropped.
pub fn move_up(picked: usize, table: &mut [u8; TableBytes::COUNT])
    requires { picked < 72 }
    ensures table_after { writes_in table.new ≡ moved_up (writes_in table.old) picked }
    ensures table_len { length table.new ≡ 792 }
{
    let mut writes = writes_in(table);
    write_table::move_up(picked, &mut writes);
    lay_out(&writes, table);
}

// The write at `position` of word `x`.
pub fn write_at(table: &[u8; TableBytes::COUNT], shape: MemoryShape, x: u8, position: u8) -> Write
    ensures { result ≡ write_at (memory_in shape table.now) x position }
{
    memory::write_at(&writes_in(table), shape, x, position)
}

// Sets the covered mark of the write at `position` of word `x`.
pub fn cover(shape: MemoryShape, x: u8, position: u8, table: &mut [u8; TableBytes::COUNT])
    ensures table_after { memory_in shape table.new ≡ covering (memory_in shape table.old) x position }
    ensures table_len { length table.new ≡ 792 }
{
    let mut writes = writes_in(table);
    memory::cover(shape, x, position, &mut writes);
    lay_out(&writes, table);
}

// Inserts the write directly behind `position` of word `x`.
pub fn insert(
    shape: MemoryShape,
    x: u8,
    position: u8,
    write: Write,
    table: &mut [u8; TableBytes::COUNT],
) -> MemoryShape
    ensures table_after { memory_in result table.new ≡ inserted (memory_in shape table.old) x position write }
    ensures table_len { length table.new ≡ 792 }
{
    let mut writes = writes_in(table);
    let shape = insert::insert(shape, x, position, write, &mut writes);
    lay_out(&writes, table);
    shape
}

// Thread `t` loads the write at `position` of word `x`: only its view changes.
pub fn load(
    table: &[u8; TableBytes::COUNT],
    shape: MemoryShape,
    acquires: bool,
    t: u8,
    x: u8,
    position: u8,
) -> MemoryShape
    ensures { memory_in result table.now ≡ loaded (memory_in shape table.now) acquires t x position }
{
    access::load(&writes_in(table), shape, acquires, t, x, position)
}

// Thread `t` stores `value` behind `position` of word `x`, from its own view.
pub fn store(
    shape: MemoryShape,
    releasing: bool,
    x: u8,
    value: u8,
    t: u8,
    position: u8,
    table: &mut [u8; TableBytes::COUNT],
) -> MemoryShape
    ensures table_after { memory_in result table.new ≡ stored (memory_in shape table.old) releasing x value t position }
    ensures table_len { length table.new ≡ 792 }
{
    let mut writes = writes_in(table);
    let shape = access::store(shape, releasing, x, value, t, position, &mut writes);
    lay_out(&writes, table);
    shape
}

// Thread `t` swaps `value` into word `x`: a releasing store that also covers the picked write.
pub fn swap(
    shape: MemoryShape,
    x: u8,
    value: u8,
    t: u8,
    position: u8,
    table: &mut [u8; TableBytes::COUNT],
) -> MemoryShape
    ensures table_after { memory_in result table.new ≡ swapped (memory_in shape table.old) x value t position }
    ensures table_len { length table.new ≡ 792 }
{
    let mut writes = writes_in(table);
    let shape = access::swap(shape, x, value, t, position, &mut writes);
    lay_out(&writes, table);
    shape
}

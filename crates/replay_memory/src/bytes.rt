// The table of writes as bytes, eleven for each of 72 places, for a caller that keeps it so, as a device does: its writes, and a memory's.
#![tactic(auto, using(crate::proofs::BytesBranches::layouts))]

ghost use Rattle.std.specs.Prelude.{◌≡◌, ◌<◌, length, set};
ghost use Rattle.replay_memory.specs.Bytes.{view_at, read_at, writes_in, put_view, memory_in};

use crate::memory;
use crate::memory::{Memory, MemoryShape};
use crate::view::View;
use crate::write::{Write, start_write};
use crate::write_table::{Places, bit};

// The dimensions of the table of bytes.
#[derive(Drop)]
pub struct TableBytes {}

impl TableBytes {
    // Value, releasing, covered, and a position for each of eight words.
    pub const WIDTH: usize = 11;

    pub const COUNT: usize = 792;
}

// The stored view of the write at place `i`.
fn view_at(table: &[u8; TableBytes::COUNT], i: usize) -> View
    requires { i < 72 }
    ensures { result ≡ view_at table.now i }
{
    let b = i * TableBytes::WIDTH + 3;
    View {
        at: [
            table[b],
            table[b + 1],
            table[b + 2],
            table[b + 3],
            table[b + 4],
            table[b + 5],
            table[b + 6],
            table[b + 7],
        ],
    }
}

// The write at place `i`: a mark is set where its byte is 1.
pub fn read_at(table: &[u8; TableBytes::COUNT], i: usize) -> Write
    requires { i < 72 }
    ensures { result ≡ read_at table.now i }
{
    let b = i * TableBytes::WIDTH;
    Write {
        value: table[b],
        releasing: table[b + 1] == 1,
        covered: table[b + 2] == 1,
        stored: view_at(table, i),
    }
}

// Writes the stored view of place `i`.
fn put_view(view: View, i: usize, table: &mut [u8; TableBytes::COUNT])
    requires { i < 72 }
    ensures table_after { (table.new ≡ put_view table.old i view 8) × (length view.at ≡ 8) }
    ensures table_len { length table.new ≡ 792 }
{
    let b = i * TableBytes::WIDTH + 3;
    for k in 0..8 {
        table[b + k] = view.at[k];
    }
}

// Writes a write to place `i`.
pub fn put_at(write: Write, i: usize, table: &mut [u8; TableBytes::COUNT])
    requires { i < 72 }
    ensures table_after { writes_in table.new ≡ set (writes_in table.old) i write }
    ensures table_len { length table.new ≡ 792 }
{
    let b = i * TableBytes::WIDTH;
    table[b] = write.value;
    table[b + 1] = bit(write.releasing);
    table[b + 2] = bit(write.covered);
    put_view(write.stored, i, table);
}

// The writes at all places.
pub fn writes_in(table: &[u8; TableBytes::COUNT]) -> [Write; Places::COUNT]
    ensures { result ≡ writes_in table.now }
{
    let none = start_write(0);
    let mut writes = [none; Places::COUNT];
    for i in 0..Places::COUNT {
        writes[i] = read_at(table, i);
    }
    writes
}

// Writes all 72 places to the table.
pub fn lay_out(writes: &[Write; Places::COUNT], table: &mut [u8; TableBytes::COUNT])
    ensures table_after { writes_in table.new ≡ writes.now }
    ensures table_len { length table.new ≡ 792 }
{
    for i in 0..Places::COUNT {
        put_at(writes[i], i, table);
    }
}

// The memory with these sizes and views, its writes read from the table.
pub fn memory_of(shape: MemoryShape, table: &[u8; TableBytes::COUNT]) -> Memory
    ensures { result ≡ memory_in shape table.now }
{
    memory::memory_of(shape, &writes_in(table))
}

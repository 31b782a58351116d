// The memory: one table of writes, word by word in modification order (the page's row order), with the sizes of eight rows, and the
// views of four threads. Words, threads and positions count from 0 here; a number past the last one is taken modulo eight, four or
// 72, which bounds each index without a precondition.
ghost use Rattle.std.specs.Prelude.{◌≡◌, ◌≤◌, ◌<◌, ◌*◌, ◌%◌, get_or};
ghost use Rattle.replay_memory.specs.Memory.{first, index_of, write_at, covering, memory_of, seen_by, with_seen};

use crate::view::View;
use crate::write::Write;
use crate::write_table::Places;
use limits::read::{byte_at, u8_at};

// There are 64 places for the writes of a program, and one for each of eight words: a word that is not there has its start write too.
#[derive(Clone, Copy)]
pub struct Memory {
    pub sizes: [u8; 8],
    pub writes: [Write; Places::COUNT],
    pub views: [View; 4],
}

// A memory without its writes, which are in a table, so that a step copies none of them.
#[derive(Clone, Copy)]
pub struct MemoryShape {
    pub sizes: [u8; 8],
    pub views: [View; 4],
}

// The place where the row of word `x` begins: after the writes of the words before it.
#[tactic(auto, using(crate::proofs::OrderPlaces::orders))]
pub fn first_of(sizes: &[u8], x: u8) -> usize
    ensures { (result ≡ first sizes.now x) × (result ≤ x * 255) }
{
    let mut sum: usize = 0;
    for j in 0..x {
        sum += byte_at(sizes, usize::from(j));
    }
    sum
}

// The place of the write at `position` of word `x`.
#[tactic(auto, using(crate::proofs::OrderPlaces::orders))]
pub fn index_of(sizes: &[u8], x: u8, position: u8) -> usize
    ensures { (result ≡ index_of sizes.now x position) × (result < 72) }
{
    (first_of(sizes, x % 8) + usize::from(position)) % Places::COUNT
}

// How many writes the row of word `x` has.
pub fn size_in(sizes: &[u8], x: u8) -> u8
    ensures { result ≡ get_or sizes.now (x % 8) 0 }
{
    u8_at(sizes, usize::from(x % 8))
}

// Word and position are two numbers of a step that callees take apart again, so a struct of them would be made and unmade in each call.
// The write at `position` of word `x`.
#[tactic(auto, using(limits::proofs::BranchTests::tests), unfolding(crate::specs::Memory::write_at, crate::specs::Memory::memory_of))]
pub fn write_at(table: &[Write; Places::COUNT], shape: MemoryShape, x: u8, position: u8) -> Write
    ensures { result ≡ write_at (memory_of shape table.now) x position }
{
    table[index_of(&shape.sizes, x, position)]
}

// The view of thread `t`.
#[tactic(auto, using(limits::proofs::BranchTests::tests), unfolding(crate::specs::Memory::seen_by))]
pub fn view_of(shape: MemoryShape, t: u8) -> View
    ensures { result ≡ seen_by shape t }
{
    shape.views[usize::from(t % 4)]
}

// The memory's shape with `view` for thread `t`.
#[tactic(auto, using(limits::proofs::BranchTests::tests), unfolding(crate::specs::Memory::with_seen))]
pub fn with_view(shape: MemoryShape, t: u8, view: View) -> MemoryShape
    ensures { result ≡ with_seen shape t view }
{
    let mut shape = shape;
    shape.views[usize::from(t % 4)] = view;
    shape
}

// Sets the covered mark of the write at `position` of word `x`.
#[tactic(auto, using(crate::proofs::OrderPlaces::orders))]
pub fn cover(shape: MemoryShape, x: u8, position: u8, table: &mut [Write; Places::COUNT])
    ensures { memory_of shape table.new ≡ covering (memory_of shape table.old) x position }
{
    table[index_of(&shape.sizes, x, position)].covered = true;
}

// The memory with these sizes and views, and the writes of the table.
#[tactic(auto, using(limits::proofs::BranchTests::tests), unfolding(crate::specs::Memory::memory_of))]
pub fn memory_of(shape: MemoryShape, table: &[Write; Places::COUNT]) -> Memory
    ensures { result ≡ memory_of shape table.now }
{
    let sizes = shape.sizes;
    let writes = *table;
    let views = shape.views;
    Memory {
        sizes,
        writes,
        views,
    }
}

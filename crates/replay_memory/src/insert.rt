// Insertion of a write directly behind another: the writes after it in the table move up by one, and every view keeps its writes.
#![tactic(auto, using(crate::proofs::InsertBranches::insertions))]

ghost use Rattle.std.specs.Prelude.{◌≡◌};
ghost use Rattle.replay_memory.specs.Memory.{memory_of};
ghost use Rattle.replay_memory.specs.Insert.{grown, inserted};

use crate::memory::{MemoryShape, index_of};
use crate::view::{next, up_view};
use crate::write::Write;
use crate::write_table::{Places, move_up, raise_all};

// Word and position are two numbers of a step that callees take apart again, so a struct of them would be made and unmade in each call.
// The sizes and views after one more write of word `x`, behind `position`: threads' views keep their writes.
pub fn grow(shape: MemoryShape, x: u8, position: u8) -> MemoryShape
    ensures { result ≡ grown shape x position }
{
    let mut grown = shape;
    for view in grown.views.iter_mut() {
        *view = up_view(*view, x, position);
    }
    let i = usize::from(x % 8);
    grown.sizes[i] = next(grown.sizes[i]);
    grown
}

// Inserts the write directly behind `position` of word `x`.
pub fn insert(
    shape: MemoryShape,
    x: u8,
    position: u8,
    write: Write,
    table: &mut [Write; Places::COUNT],
) -> MemoryShape
    ensures { memory_of result table.new ≡ inserted (memory_of shape table.old) x position write }
{
    raise_all(x, position, table);
    move_up(index_of(&shape.sizes, x, position), table);
    table[index_of(&shape.sizes, x, next(position))] = write;
    grow(shape, x, position)
}

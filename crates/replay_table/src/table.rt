// The two functions that touch an entry of the caller's table.
ghost use Rattle.std.specs.Prelude.{◌≡◌, get_or};
ghost use Rattle.replay_table.specs.Sweep.{swept_of};

use crate::order::{Order, turn_at, visited};
use replay_memory::write::Write;

// The write of entry `i`; `none` past the end.
pub fn read(table: &[Write], i: usize, none: Write) -> Write
    ensures { result ≡ get_or table.now i none }
{
    if i < table.len() { table[i] } else { none }
}

// Inserts a write in one sweep: the entries from its place on move up by one, and every stored view keeps its writes. Entries that are
// not in use afterwards are not visited.
pub fn insert(order: Order, table: &mut [Write])
    ensures { table.new ≡ swept_of order table.old }
{
    let n = visited(order, table.len());
    let mut carried = order.write;
    for e in 0..n {
        let t = turn_at(order, e, carried, table[e]);
        table[e] = t.put;
        carried = t.next;
    }
}

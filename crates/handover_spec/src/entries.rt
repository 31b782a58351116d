// The entries of a handover table, three bytes each: a new point, and a line of the new image (16 bits).
#![tactic(auto, using(crate::proofs::TableBranches::entries_branches, limits::proofs::BranchTests::tests))]

ghost use Rattle.std.specs.Prelude.{◌≡◌, ◌+◌, ◌<◌};
ghost use Rattle.handover_spec.specs.Table.{point_named, line_named};
ghost use Rattle.handover_spec.specs.Fits.{entry_fits, entries_fit};

use limits::range::in_range;
use limits::read::{byte_at, u16_at};

// The size of an entry in bytes.
#[derive(Drop)]
pub struct Entry;

impl Entry {
    pub const SIZE: usize = 3;
}

// The bound keeps the sum for the place in the table within its type; a number type for it would be unwrapped in every line.
// The new point in entry `i`.
pub fn point_named(table: &[u8], i: usize) -> usize
    requires { i < 65536 }
    ensures { (result ≡ point_named table.now i) × (result < 256) }
{
    byte_at(table, Entry::SIZE * i)
}

// The line of the new image in entry `i`.
pub fn line_named(table: &[u8], i: usize) -> usize
    requires { i < 65536 }
    ensures { (result ≡ line_named table.now i) × (result < 65536) }
{
    u16_at(table, Entry::SIZE * i + 1)
}

// Entry `i` names a point up to `last` and a line from 1 to `lines`.
fn entry_fits(table: &[u8], last: usize, lines: usize, i: usize) -> bool
    requires { i < 65536 }
    ensures { result ≡ entry_fits table.now last lines i }
{
    point_named(table, i) <= last && in_range(line_named(table, i), 1, lines)
}

// Entries `from` to `from + n - 1` all name a point up to `last` and a line from 1 to `lines`.
#[tactic(auto, using(crate::proofs::TableBranches::entries_fit_branches, limits::proofs::BranchTests::tests))]
pub fn entries_fit(table: &[u8], last: usize, lines: usize, from: usize, n: usize) -> bool
    requires { from + n < 65536 }
    ensures { result ≡ entries_fit table.now last lines from n }
{
    for k in 0..n {
        if !entry_fits(table, last, lines, from + k) {
            return false;
        }
    }
    true
}

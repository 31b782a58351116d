// The caller's table of writes as bytes: an entry of eleven for each write.
ghost use Rattle.std.specs.Prelude.{◌≡◌, ◌++◌, ◌≤◌, ◌*◌, length, get_or, take, drop};
ghost use Rattle.replay_machine.specs.OutputTable.{entry_bytes, laid};

use crate::output::Shown;
use replay_memory::write::Write;
use replay_memory::write_table::bit;

// The layout of an entry.
#[derive(Drop)]
pub struct Entry {}

impl Entry {
    // Value, releasing, covered, and a position for each of eight words.
    pub const SIZE: usize = 11;
}

// Byte `j` of a write's entry.
#[tactic(auto, using(crate::proofs::OutputBranches::entry_byte_branches, limits::proofs::BranchTests::tests))]
fn entry_byte(write: Write, j: usize) -> u8
    ensures { result ≡ get_or (entry_bytes write) j 0 }
{
    match j {
        0 => write.value,
        1 => bit(write.releasing),
        2 => bit(write.covered),
        3..Entry::SIZE => write.stored.at[j - 3],
        _ => 0,
    }
}

// Writes an entry to the front of `out`; the bytes after it stay.
#[tactic(auto, using(crate::proofs::OutputBranches::copies))]
fn write_entry(write: Write, out: &mut [u8])
    requires { 11 ≤ length out.old }
    ensures { out.new ≡ entry_bytes write ++ drop 11 out.old }
{
    for j in 0..Entry::SIZE {
        out[j] = entry_byte(write, j);
    }
}

// Writes the shown writes to the table; entries that are not used stay, and so do bytes after the last whole entry.
#[tactic(auto, using(crate::proofs::OutputBranches::laid_ways))]
pub fn write_shown(shown: Shown, table: &mut [u8])
    requires { (shown.count * 11 ≤ length table.old) × ((shown.count ≤ 64) × (length shown.writes ≡ 64)) }
    ensures { table.new ≡ laid (take shown.count shown.writes) table.old }
{
    for e in 0..shown.count {
        write_entry(shown.writes[e], &mut table[e * Entry::SIZE..]);
    }
}

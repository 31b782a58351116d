// The table of writes, one for each of 72 places, changed in place.
#![tactic(auto, using(crate::proofs::TablePlaces::places))]

ghost use Rattle.std.specs.Prelude.{◌≡◌, ◌<◌};
ghost use Rattle.replay_memory.specs.WriteTable.{bit, raised_all, moved_up};

use crate::view::up;
use crate::write::Write;

// The dimensions of the table.
#[derive(Drop)]
pub struct Places {}

impl Places {
    pub const COUNT: usize = 72;
}

// A mark as a byte: 1 if it is set.
pub fn bit(mark: bool) -> u8
    ensures { result ≡ bit mark }
{
    if mark { 1 } else { 0 }
}

// Adjusts every stored view to an insertion behind `position` of word `x`, so that it keeps its write.
pub fn raise_all(x: u8, position: u8, table: &mut [Write; Places::COUNT])
    ensures { table.new ≡ raised_all table.old x position }
{
    let i = usize::from(x % 8);
    for j in 0..Places::COUNT {
        table[j].stored.at[i] = up(position, table[j].stored.at[i]);
    }
}

// Moves the writes after place `picked` up by one. Place `picked` + 1 is then free for a new write; the write in the last place is dropped.
pub fn move_up(picked: usize, table: &mut [Write; Places::COUNT])
    requires { picked < 72 }
    ensures { table.new ≡ moved_up table.old picked }
{
    let before = *table;
    table[picked + 1..].copy_from_slice(&before[picked..Places::COUNT - 1]);
}

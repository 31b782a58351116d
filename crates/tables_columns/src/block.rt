// Arrays for columns: all rows are evaluated together.
ghost use Rattle.std.specs.Prelude.{◌≡◌, ◌≤◌, length, take};
ghost use Rattle.tables_columns.specs.Column.{constant};

// The lengths of the arrays for columns, in rows.
#[derive(Drop)]
pub struct Block {}

impl Block {
    // The greatest number of rows that is ever tried.
    pub const ROWS: usize = 4096;

    // Most tests have at most this many rows. The array for them is cleared in a fraction of the time.
    pub const FEW: usize = 1024;
}

// Writes the same value at the first `n` rows.
pub fn fill(value: u8, n: usize, out: &mut [u8])
    requires { n ≤ length out.old }
    ensures { take n out.new ≡ constant value n }
{
    out[..n].fill(value);
}

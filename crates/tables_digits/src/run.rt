// Runs of a value in a column, and columns extended by repetition.
ghost use Rattle.std.specs.Prelude.{◌≡◌, ◌++◌, ◌+◌, ◌≤◌, ◌<◌, min, length, take};
ghost use Rattle.tables_columns.specs.Column.{constant};
ghost use Rattle.tables_digits.specs.SlotColumn.{Widened};

// Writes the value at `count` rows from row `from` on.
pub fn set_run(value: u8, from: usize, count: usize, out: &mut [u8])
    requires { from + count ≤ length out.old }
    ensures { take (from + count) out.new ≡ take from out.old ++ constant value count }
{
    out[from..from + count].fill(value);
}

// Copies the first `count` rows to the rows from row `from` on.
pub fn repeat_front(from: usize, count: usize, out: &mut [u8])
    requires { (count ≤ from) × (from + count ≤ length out.old) }
    ensures { take (from + count) out.new ≡ take from out.old ++ take count out.old }
{
    out.copy_within(..count, from);
}

// Extends a column whose period is `from` rows to `n` rows, by repetition.
pub fn widen(from: usize, n: usize, out: &mut [u8])
    requires { (from ≤ n) × ((min 1 n ≤ from) × (n ≤ length out.old)) }
    ensures { Widened from n out.old n out.new }
{
    let mut to = from;
    // The step doubles with what is there already, so this counts no index.
    while to < n {
        let count = to.min(n - to);
        repeat_front(to, count, out);
        to += count;
    }
}

// An implication without premises tried at every row, from the row of zeros on.
ghost use Rattle.std.specs.Prelude.{◌≡◌, ◌≤◌, replicate};
ghost use Rattle.tables_digits.specs.Advance.{rows_of, EveryOnce};
ghost use Rattle.tables_rows.specs.Entailment.{pair_at};
ghost use Rattle.tables_rows.specs.EveryRow.{lasts_of, tried_rows, hold_from, rows_hold, every_of};

use crate::entailment::{Pairs, Task, gather_line, imp_fails};
use tables_columns::block::Block;
use tables_columns::column::none_below;
use tables_columns::count::{choices, count_rows};
use tables_columns::slot::{Slot, Slots};
use tables_digits::rows::Rows;
use tables_digits::value_column::Reading;

// Writes the last values of the first `n` slots into a zeroed array; the others stay 0.
pub fn fill_lasts(
    image: &[u8],
    range: u8,
    slots: &[Slot; Slots::COUNT],
    n: usize,
    lasts: &mut [u8; Slots::COUNT],
)
    requires { (n ≤ 12) × (lasts.old ≡ replicate 12 0) }
    ensures { lasts.new ≡ lasts_of image.now slots.now range n }
{
    for j in 0..n {
        lasts[j] = choices(image, range, slots[j]).saturating_sub(1);
    }
}

// Whether the implication fails at none of the rows, with scratch space for two columns of `N` rows.
#[tactic(auto, using(crate::proofs::EveryRowBranches::every_row_holding, limits::proofs::BranchTests::tests))]
fn none_fails<const N: usize>(pairs: &Pairs, task: Task, rows: &Rows) -> bool
    requires in_room { (rows.now.count ≤ N) × (N ≤ 4096) }
    requires alone { task.premises ≡ 0 }
    ensures { result ≡ hold_from rows.now.image.now (pair_at pairs.now) task rows.now.reading rows.now.slots.now rows.now.lasts.now
        rows.now.count }
{
    let mut fails: [u8; N] = [0; N];
    let mut room: [u8; N] = [0; N];
    imp_fails(pairs, task, 0, rows, &mut fails, &mut room);
    none_below(&fails, rows.count)
}

// Whether the implication fails at none of the rows, with scratch space as large as their number needs.
fn try_rows(pairs: &Pairs, task: Task, rows: &Rows) -> bool
    requires { task.premises ≡ 0 }
    ensures { result ≡ hold_from rows.now.image.now (pair_at pairs.now) task rows.now.reading rows.now.slots.now rows.now.lasts.now
        rows.now.count }
{
    if rows.count <= Block::FEW {
        return none_fails::<{ Block::FEW }>(pairs, task, rows);
    }
    none_fails::<{ Block::ROWS }>(pairs, task, rows)
}

// Whether the implication holds at each row: every choice for the first `n` slots is tried exactly once, and no other row.
#[tactic(auto, using(crate::proofs::EveryRowBranches::every_row_holding, limits::proofs::BranchTests::tests))]
pub fn rows_hold(
    image: &[u8],
    pairs: &Pairs,
    task: Task,
    reading: Reading,
    slots: &[Slot; Slots::COUNT],
    n: usize,
    rows: usize,
) -> bool
    requires n_bound { (n ≤ 12) × ((rows ≤ 4096) × (task.premises ≡ 0)) }
    requires rows_value { rows ≡ rows_of (lasts_of image.now slots.now reading.range n) }
    ensures value { result ≡ rows_hold image.now (pair_at pairs.now) task reading slots.now n rows }
    ensures once { EveryOnce (lasts_of image.now slots.now reading.range n)
        (tried_rows image.now slots.now reading.range n rows) }
{
    let mut lasts: [u8; Slots::COUNT] = [0; Slots::COUNT];
    fill_lasts(image, reading.range, slots, n, &mut lasts);
    let rows = Rows {
        image,
        reading,
        slots,
        lasts: &lasts,
        count: rows,
    };
    try_rows(pairs, task, &rows)
}

// Whether there are at most `limit` rows, and the implication holds at each.
pub fn every_row(image: &[u8], pairs: &Pairs, task: Task, reading: Reading, limit: u16) -> bool
    requires { (2 ≤ reading.range) × ((limit ≤ 4096) × (task.premises ≡ 0)) }
    ensures { result ≡ every_of image.now (pair_at pairs.now) task reading limit }
{
    let mut slots: [Slot; Slots::COUNT] = [Slot::EMPTY; Slots::COUNT];
    let k = gather_line(image, pairs, task, reading.leaves, &mut slots);
    if Slots::COUNT < k {
        return false;
    }
    let rows = count_rows(image, &slots, k, reading.range, limit);
    if u32::from(limit) < rows {
        return false;
    }
    rows_hold(image, pairs, task, reading, &slots, k, rows as usize)
}

// The check by truth table: the line and its premises as bits, with their leaves gathered on the same walk.
ghost use Rattle.std.specs.Prelude.{◌≡◌, ◌^◌, ◌≤◌};
ghost use Rattle.tables_columns.specs.Gather.{view};
ghost use Rattle.tables_digits.specs.Advance.{EveryOnce};
ghost use Rattle.tables_bits.specs.TruthTable.{by_leaves, Grown};
ghost use Rattle.tables_rows.specs.Entailment.{pair_at, imp_of, gather_imp, gather_all};
ghost use Rattle.tables_rows.specs.EveryRow.{lasts_of, tried_rows, rows_hold, every_of};
ghost use Rattle.tables_rows.specs.ByTable.{ImpBits, FailBits};

use crate::entailment::{Pairs, Task, pair_at};
use formula::code::Code;
use limits::Limits;
use tables_bits::bits::{Words, combine_words, deny_words, none_set, rows_of};
use tables_bits::truth_table::table_at;
use tables_columns::slot::{Slot, Slots};

// Writes the rows at which implication `i` fails, and adds its leaves; returns the number of leaves then.
#[tactic(auto, using(crate::proofs::ByTableBranches::imp_bits_branches, crate::proofs::EntailmentBranches::imp_gathered))]
fn imp_bits(
    image: &[u8],
    pairs: &Pairs,
    task: Task,
    i: usize,
    n: usize,
    slots: &mut [Slot; Slots::COUNT],
    out: &mut [u64; Words::COUNT],
) -> usize
    ensures slots_after { view image.now result slots.new ≡ gather_imp by_leaves.leaves
        (imp_of image.now (pair_at pairs.now) task i) (view image.now n slots.old) }
    ensures grown { Grown n slots.old result slots.new out.new }
    ensures imp_bits { ImpBits image.now result slots.new
        (imp_of image.now (pair_at pairs.now) task i)
        out.new }
{
    let mut b: [u64; Words::COUNT] = [0; Words::COUNT];
    let pair = pair_at(pairs, i);
    let m = table_at(image, pair.right, task.right, n, slots, &mut b);
    let k = table_at(image, pair.left, task.left, m, slots, out);
    deny_words(out, &b);
    k
}

// Writes the rows at which the entailment fails: every premise is true there, and the line is not. Returns the number of leaves.
#[tactic(auto, using(crate::proofs::ByTableBranches::all_bits_rowsets, crate::proofs::EntailmentBranches::all_bits_gathered))]
fn all_bits(
    image: &[u8],
    pairs: &Pairs,
    task: Task,
    slots: &mut [Slot; Slots::COUNT],
    out: &mut [u64; Words::COUNT],
) -> usize
    ensures slots_after { view image.now result slots.new ≡ gather_all image.now (pair_at pairs.now) task
        by_leaves.leaves }
    ensures fail_bits { FailBits image.now (pair_at pairs.now) task result slots.new out.new }
{
    let mut holds: [u64; Words::COUNT] = [Words::ALL; Words::COUNT];
    let mut n: usize = 0;
    for i in (0..task.premises).rev() {
        let mut fails: [u64; Words::COUNT] = [0; Words::COUNT];
        n = imp_bits(image, pairs, task, i + 1, n, slots, &mut fails);
        deny_words(&mut holds, &fails);
    }
    let k = imp_bits(image, pairs, task, 0, n, slots, out);
    combine_words(Code::AND, 0, out, &holds);
    k
}

// Whether the entailment fails at no row: every choice for the first `n` slots is tried exactly once, and no other row.
#[tactic(auto, using(crate::proofs::ByTableBranches::bits_hold_branches, limits::proofs::BranchTests::tests))]
fn bits_hold(
    image: &[u8],
    pairs: &Pairs,
    task: Task,
    slots: &[Slot; Slots::COUNT],
    n: usize,
    fails: &[u64; Words::COUNT],
) -> bool
    requires n_bound { n ≤ 10 }
    requires fail_bits { FailBits image.now (pair_at pairs.now) task n slots.now fails.now }
    ensures value { result ≡ rows_hold image.now (pair_at pairs.now) task by_leaves slots.now n
        (2 ^ n) }
    ensures once { EveryOnce (lasts_of image.now slots.now 2 n)
        (tried_rows image.now slots.now 2 n (2 ^ n)) }
{
    none_set(fails, rows_of(n))
}

// Whether there are at most ten leaves, and the line is true at each row at which every premise is.
#[tactic(auto, using(crate::proofs::ByTableBranches::by_bits_branches, limits::proofs::BranchTests::tests))]
pub fn by_bits(image: &[u8], pairs: &Pairs, task: Task) -> bool
    ensures { result ≡ every_of image.now (pair_at pairs.now) task by_leaves 1024 }
{
    let mut slots: [Slot; Slots::COUNT] = [Slot::EMPTY; Slots::COUNT];
    let mut fails: [u64; Words::COUNT] = [0; Words::COUNT];
    let k = all_bits(image, pairs, task, &mut slots, &mut fails);
    if Limits::LEAVES < k {
        return false;
    }
    bits_hold(image, pairs, task, &slots, k, &fails)
}

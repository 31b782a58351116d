// The column of a slot: its digit in each row. A digit keeps its value for a run of rows, in which the digits before it take all their
// values.
ghost use Rattle.std.specs.Prelude.{◌≡◌, ◌+◌, ◌≤◌, ◌<◌, length, take};
ghost use Rattle.tables_digits.specs.SlotColumn.{slot_column, longer_run, run_of, span_of, level_in};

use crate::run::set_run;
use tables_columns::block::fill;
use tables_columns::slot::Slots;

// The run of the next digit: `run` times the choices of a digit whose last value is `last`. A run of at least `n` rows stays as it is,
// which bounds the product.
#[tactic(auto, using(crate::proofs::RunBranches::longer_branches, limits::proofs::BranchTests::tests))]
fn longer(run: usize, last: u8, n: usize) -> usize
    requires { n ≤ 4096 }
    ensures { result ≡ longer_run n last run }
{
    if run < n {
        return run * (usize::from(last) + 1);
    }
    run
}

// The number of rows in a run of digit `j`, or some number from `n` on if it has at least `n` rows.
#[tactic(auto, using(crate::proofs::RunBranches::run_of_branches))]
fn run_of(lasts: &[u8; Slots::COUNT], j: usize, n: usize) -> usize
    requires { (j ≤ 12) × (n ≤ 4096) }
    ensures { result ≡ run_of n lasts.now j }
{
    let mut run = 1;
    for i in 0..j {
        run = longer(run, lasts[i], n);
    }
    run
}

// The period of the first `j` digits: the number of rows in which they take all their values, at most `n`.
#[tactic(auto, using(crate::proofs::RunBranches::span_is, limits::proofs::BranchTests::tests))]
pub fn span_of(lasts: &[u8; Slots::COUNT], j: usize, n: usize) -> usize
    requires { (j ≤ 12) × (n ≤ 4096) }
    ensures { result ≡ span_of n lasts.now j }
{
    n.min(run_of(lasts, j, n))
}

// Writes the runs of digit `j`, value after value, at most up to row `n`.
#[tactic(auto, using(crate::proofs::RunBranches::set_runs_branches))]
fn set_runs(lasts: &[u8; Slots::COUNT], j: usize, run: usize, n: usize, out: &mut [u8])
    requires j_bound { (j < 12) × (run ≡ run_of n lasts.now j) }
    requires in_bounds { n ≤ length out.old }
    ensures { take (span_of n lasts.now (j + 1)) out.new
        ≡ slot_column lasts.now j (span_of n lasts.now (j + 1)) }
{
    let mut to = 0;
    for value in 0..=lasts[j] {
        let count = run.min(n - to);
        set_run(value, to, count, out);
        to += count;
    }
}

// Writes the column of slot `j` for one period; returns the number of digits that it depends on. For a slot that is not there all is 0.
#[tactic(auto, using(crate::proofs::RunBranches::take_slot_branches))]
pub fn take_slot(lasts: &[u8; Slots::COUNT], j: usize, n: usize, out: &mut [u8]) -> usize
    requires { (n ≤ 4096) × (n ≤ length out.old) }
    ensures value { result ≡ level_in j }
    ensures out_after { take (span_of n lasts.now result) out.new
        ≡ slot_column lasts.now j (span_of n lasts.now result) }
{
    if j < Slots::COUNT {
        let run = run_of(lasts, j, n);
        set_runs(lasts, j, run, n, out);
        return j + 1;
    }
    fill(0, span_of(lasts, 0, n), out);
    0
}

// Tests by rows and truth tables, with 1 for true and 0 for false.
ghost use Rattle.std.specs.Prelude.{◌≡◌, ◌<◌, ◌^◌};
ghost use Rattle.limits.specs.Limits.{nesting};
ghost use Rattle.formula.specs.Tree.{parse_tree};
ghost use Rattle.tables_rows.specs.ByRows.{rows_t, table_t, line_of, premises_of};
ghost use Rattle.exports.specs.Answers.{of_truth};
ghost use Rattle.exports.specs.Places.{implication_at, pairs_in, implications_in};

use limits::Limits;
use limits::read::u16_at;
use tables_rows::by_rows::{Implications, by_rows, by_table};
use tables_rows::entailment::{Implication, Sizes};

// The result of `by_rows` for the tests at positions `left` and `right` of `body`, over `range` values.
#[tactic(auto, using(crate::proofs::RowsBranches::rows_branches, limits::proofs::BranchTests::tests))]
#[unsafe(no_mangle)]
pub extern "C" fn rows_answer(body: &[u8], left: usize, right: usize, range: u8) -> usize
    ensures { result ≡ of_truth (rows_t range (parse_tree body.now nesting left).tree (parse_tree body.now nesting right).tree) }
{
    let k = Limits::NESTING;
    usize::from(by_rows(body, left, k, right, k, range))
}

// The implication whose formulas stand at the positions of the pair at `at`, 16 bits each; those past the end are 0.
#[tactic(auto, unfolding(crate::specs::Places::implication_at))]
fn implication_at(places: &[u8], at: usize) -> Implication
    requires { at < 2 ^ 16 }
    ensures { result ≡ implication_at at places.now }
{
    Implication {
        left: u16_at(places, at),
        right: u16_at(places, at + 2),
    }
}

// The number of whole pairs in `length` bytes, at most those of a line and its premises.
#[tactic(auto, unfolding(crate::specs::Places::pairs_in))]
fn pairs_in(length: usize) -> usize
    ensures { result ≡ pairs_in length }
{
    (length / 4).min(Sizes::IMPLICATIONS)
}

// The line's implication, then that of each premise.
#[tactic(auto, unfolding(crate::specs::Places::implications_in))]
fn implications_in(places: &[u8]) -> Implications
    ensures { result ≡ implications_in places.now }
{
    Implications {
        count: pairs_in(places.len()),
        pairs: [
            implication_at(places, 0),
            implication_at(places, 4),
            implication_at(places, 8),
            implication_at(places, 12),
            implication_at(places, 16),
        ],
    }
}

// The result of `by_table` for the implications at these positions of `body`.
#[tactic(auto, using(crate::proofs::RowsBranches::rows_branches, limits::proofs::BranchTests::tests))]
#[unsafe(no_mangle)]
pub extern "C" fn table_answer(body: &[u8], places: &[u8]) -> usize
    ensures { result ≡ of_truth (table_t (premises_of body.now (implications_in places.now))
        (line_of body.now (implications_in places.now))) }
{
    usize::from(by_table(body, implications_in(places)))
}

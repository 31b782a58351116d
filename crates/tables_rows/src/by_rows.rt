// Tests by rows, and assertions by truth table.
ghost use Rattle.std.specs.Prelude.{◌≡◌};
ghost use Rattle.formula.specs.Tree.{parse_tree};
ghost use Rattle.tables_rows.specs.ByRows.{rows_t, table_t, line_of, premises_of};

use crate::by_table::by_bits;
use crate::entailment::{Implication, Pairs, Sizes, Task};
use crate::every_row::every_row;
use formula::code::Code;
use limits::Limits;
use tables_digits::value_column::Reading;

// Implications between formulas by their positions. The first is the line, the others are its premises; `count` counts all of them.
// The array has a fixed size, since nothing is on the heap; `premises_of` reads positions 0 past its end.
#[derive(Clone, Copy)]
pub struct Implications {
    pub count: usize,
    pub pairs: [Implication; Sizes::IMPLICATIONS],
}

// The codes that count as leaves by rows.
#[derive(Drop)]
pub struct LeafCodes {}

impl LeafCodes {
    // The names, which are registers and words, and the flags.
    pub const NAMES: u32 = (1 << Code::REG)
        + (1 << Code::WORD)
        + (1 << Code::UNSYNC)
        + (1 << Code::COV);
}

// `at` and `left` are handed on to a recursion that takes them apart, so no struct holds them here.
// Whether the test at `other_at` is true at every row at which the one at `at` is, with at most 4,096 rows. No image has a range below 2;
// the first test is there because `every_row` needs two values.
#[tactic(auto, using(crate::proofs::ByRowsBranches::by_rows_branches, limits::proofs::BranchTests::tests))]
pub fn by_rows(
    image: &[u8],
    at: usize,
    left: usize,
    other_at: usize,
    other_left: usize,
    range: u8,
) -> bool
    ensures { result ≡ rows_t range (parse_tree image.now left at).tree
        (parse_tree image.now other_left other_at).tree }
{
    if range < 2 {
        return false;
    }
    let pairs = [Implication {
        left: at,
        right: other_at,
    }];
    let task = Task {
        premises: 0,
        left: left,
        right: other_left,
    };
    let reading = Reading {
        leaves: LeafCodes::NAMES,
        range,
    };
    every_row(
        image,
        &Pairs::Joined(&pairs),
        task,
        reading,
        Limits::ROWS as u16,
    )
}

// Whether the line is true at each row of the truth table at which every premise is, with at most ten leaves.
#[tactic(auto, using(crate::proofs::ByRowsBranches::by_rows_branches, limits::proofs::BranchTests::tests))]
pub fn by_table(image: &[u8], imps: Implications) -> bool
    ensures { result ≡ table_t (premises_of image.now imps) (line_of image.now imps) }
{
    let task = Task {
        premises: imps.count.saturating_sub(1),
        left: Limits::NESTING,
        right: Limits::NESTING,
    };
    by_bits(image, &Pairs::Joined(&imps.pairs), task)
}

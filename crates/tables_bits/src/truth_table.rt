// The truth table of a formula: a bit for each row. Formulas are walked from right to left, as leaves are gathered.
ghost use Rattle.std.specs.Prelude.{◌≡◌, ◌<◌, replicate};
ghost use Rattle.formula.specs.Tree.{parse_tree};
ghost use Rattle.tables_columns.specs.Gather.{view, put_t, gather_t};
ghost use Rattle.tables_columns.specs.Column.{constant};
ghost use Rattle.tables_bits.specs.Bits.{word_of, words_of};
ghost use Rattle.tables_bits.specs.TruthTable.{by_leaves, Grown, LeafBits, TreeBits};

use crate::bits::{Words, combine_word, combine_words, fill_words, leaf_words};
use formula::code::{Code, contains};
use formula::end::end_at;
use formula::node::node_at;
use tables_columns::gather::put_slot;
use tables_columns::slot::{Slot, Slots, leaf_slot, slot_within};

// The codes that count as leaves of a truth table.
#[derive(Drop)]
pub struct TableCodes {}

impl TableCodes {
    // Sees, start and comparisons. Flags and sums are listed so that every tree has a table; in an assertion, flags occur under sees
    // alone and sums in comparisons, so they never come up.
    pub const LEAVES: u32 = (1 << Code::SEES)
        + (1 << Code::START)
        + (1 << Code::EQUAL)
        + (1 << Code::LESS)
        + (1 << Code::UNSYNC)
        + (1 << Code::COV)
        + (1 << Code::SUM);
}

// `at` and `left` change separately at each step of a recursion, so a struct of them would be taken apart in every call.
// Slots and tables are two buffers that are lent to each call, and the number of slots is what it returns.

// Writes the table of the leaf at `at`, and adds the leaf unless one of the first `n` slots has it; returns the number of leaves then.
#[tactic(auto, using(crate::proofs::TruthTableBranches::within_slots))]
pub fn leaf_bits(
    image: &[u8],
    at: usize,
    left: usize,
    n: usize,
    slots: &mut [Slot; Slots::COUNT],
    out: &mut [u64; Words::COUNT],
) -> usize
    requires { 0 < left }
    ensures slots_after { view image.now result slots.new ≡ put_t (parse_tree image.now left at).tree
        (view image.now n slots.old) }
    ensures grown { Grown n slots.old result slots.new out.new }
    ensures leaf_bits { LeafBits image.now result slots.new (parse_tree image.now left at).tree out.new }
{
    if Slots::COUNT < n {
        return n;
    }
    let j = slot_within(image, at, left, slots, n);
    leaf_words(j, out);
    if j < n {
        return n;
    }
    put_slot(n, leaf_slot(image, at, left), slots)
}

// Writes the table of a node without parts, which is the same at every row.
fn plain_bits(code: u8, operand: u8, out: &mut [u64; Words::COUNT])
    ensures { out.new ≡ constant (word_of code operand 0 0) 16 }
{
    fill_words(combine_word(code, operand, 0, 0), out);
}

// Computes the table of a node with one part, in place of the part's.
fn single_bits(code: u8, operand: u8, out: &mut [u64; Words::COUNT])
    ensures { out.new ≡ words_of code operand 16 out.old (replicate 16 0) }
{
    let none: [u64; Words::COUNT] = [0; Words::COUNT];
    combine_words(code, operand, out, &none);
}

// Writes the table of the formula at `at`, nested at most `left` deep, and adds its leaves; returns the number of leaves then.
#[tactic(auto, using(crate::proofs::TruthTableBranches::table_at_branches))]
pub fn table_at(
    image: &[u8],
    at: usize,
    left: usize,
    n: usize,
    slots: &mut [Slot; Slots::COUNT],
    out: &mut [u64; Words::COUNT],
) -> usize
    ensures slots_after { view image.now result slots.new ≡ gather_t by_leaves.leaves
        (parse_tree image.now left at).tree
        (view image.now n slots.old) }
    ensures grown { Grown n slots.old result slots.new out.new }
    ensures tree_bits { TreeBits image.now result slots.new (parse_tree image.now left at).tree out.new }
{
    if left == 0 {
        fill_words(0, out);
        return n;
    }
    let node = node_at(image, at);
    if contains(TableCodes::LEAVES, node.code) {
        return leaf_bits(image, at, left, n, slots, out);
    }
    if node.parts == 0 {
        plain_bits(node.code, node.operand, out);
        return n;
    }
    if node.parts == 1 {
        let k = table_at(image, node.next, left - 1, n, slots, out);
        single_bits(node.code, node.operand, out);
        return k;
    }
    let m = end_at(image, node.next, left - 1);
    let mut b: [u64; Words::COUNT] = [0; Words::COUNT];
    let k = table_at(image, m, left - 1, n, slots, &mut b);
    let e = table_at(image, node.next, left - 1, k, slots, out);
    combine_words(node.code, node.operand, out, &b);
    e
}

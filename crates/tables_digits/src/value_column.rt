// The values of a formula at all rows. A test's value is 1 for true.
// A column is computed up to its period only: after it the same values repeat. Its level says how many of the first slots it depends on.
ghost use Rattle.std.specs.Prelude.{◌≡◌, ◌≤◌, max, length, take};
ghost use Rattle.formula.specs.Codes.{part_count};
ghost use Rattle.formula.specs.Tree.{none, node};
ghost use Rattle.tables_digits.specs.SlotColumn.{span_of, Widened};
ghost use Rattle.tables_digits.specs.ValueColumn.{Joined, second_left};
ghost use Rattle.tables_digits.specs.RowsOf.{formula, level, span, column, met, leaf, reached};

use crate::rows::Rows;
use crate::run::widen;
use crate::slot_column::{span_of, take_slot};
use formula::code::contains;
use formula::end::end_at;
use formula::node::{Node, node_at};
use tables_columns::block::{Block, fill};
use tables_columns::column::combine_columns;
use tables_columns::combine::combine_parts;
use tables_columns::slot::{plain_slot, slot_of};

// The codes that count as leaves, and the number of values.
#[derive(Clone, Copy)]
pub struct Reading {
    pub leaves: u32,
    pub range: u8,
}

// The position past a formula, and the level of its column.
#[derive(Clone, Copy)]
pub struct Reached {
    pub end: usize,
    pub level: usize,
}

// Writes the column of a formula without parts, up to its period; returns its level.
#[tactic(auto, using(crate::proofs::ValueBranches::plain_column_branches))]
fn plain_column(rows: &Rows, code: u8, operand: u8, out: &mut [u8]) -> usize
    requires code_value { part_count code ≡ 0 }
    requires in_bounds { rows.now.count ≤ length out.old }
    ensures value { result ≡ level rows.now (node code operand none none) }
    ensures out_after { take (span rows.now (node code operand none none)) out.new
        ≡ column rows.now (span rows.now (node code operand none none)) (node code operand none none) }
{
    if contains(rows.reading.leaves, code) {
        let slot = plain_slot(rows.image, code, operand, rows.slots);
        return take_slot(rows.lasts, slot, rows.count, out);
    }
    fill(
        combine_parts(rows.reading.range, code, operand, 0, 0),
        span_of(rows.lasts, 0, rows.count),
        out,
    );
    0
}

// `at`, `left` and `out` change separately at each step of a recursion, so a struct of them would be taken apart in every call.

// Writes the column of the formula at `at` if there is nothing to combine: no nesting is left, it has no parts, or it is a leaf. Returns
// the column's level then.
#[tactic(auto, using(crate::proofs::ValueBranches::leaf_column_branches))]
fn leaf_column(rows: &Rows, at: usize, left: usize, out: &mut [u8]) -> Option<usize>
    requires { rows.now.count ≤ length out.old }
    ensures value { result ≡ met rows.now left at }
    ensures out_after { take (span rows.now (formula rows.now left at)) out.new
        ≡ leaf rows.now (span rows.now (formula rows.now left at)) left at out.old }
{
    if left == 0 {
        fill(0, span_of(rows.lasts, 0, rows.count), out);
        return Some(0);
    }
    let node = node_at(rows.image, at);
    if node.parts == 0 {
        return Some(plain_column(rows, node.code, node.operand, out));
    }
    if contains(rows.reading.leaves, node.code) {
        let slot = slot_of(rows.image, at, left, rows.slots);
        return Some(take_slot(rows.lasts, slot, rows.count, out));
    }
    None
}

// Extends a column of level `i` to the period of the first `level` slots, by repetition.
#[tactic(auto, using(crate::proofs::ValueBranches::widen_level_branches))]
fn widen_level(rows: &Rows, i: usize, level: usize, out: &mut [u8])
    requires levels { (i ≤ level) × (level ≤ 12) }
    requires in_bounds { rows.now.count ≤ length out.old }
    ensures { Widened (span_of rows.now.count rows.now.lasts.now i) (span_of rows.now.count rows.now.lasts.now level) out.old
        (span_of rows.now.count rows.now.lasts.now level) out.new }
{
    if i != level {
        widen(
            span_of(rows.lasts, i, rows.count),
            span_of(rows.lasts, level, rows.count),
            out,
        );
    }
}

// Computes a node's column, up to its period, from those of its parts, which have the levels `i` and `j`; returns its level.
#[tactic(auto, using(crate::proofs::ValueBranches::join_columns, crate::proofs::ValueBranches::span_low))]
fn join_columns(
    rows: &Rows,
    node: Node,
    i: usize,
    j: usize,
    column: &mut [u8],
    other: &mut [u8],
) -> usize
    requires levels { (i ≤ 12) × (j ≤ 12) }
    requires in_bounds { (rows.now.count ≤ length column.old) × (rows.now.count ≤ length other.old) }
    ensures value { result ≡ max i j }
    ensures joined { Joined rows.now.reading.range node rows.now.count rows.now.lasts.now i j column.old other.old
        column.new }
{
    let level = i.max(j);
    widen_level(rows, i, level, column);
    widen_level(rows, j, level, other);
    let span = span_of(rows.lasts, level, rows.count);
    combine_columns(
        rows.reading.range,
        node.code,
        node.operand,
        span,
        column,
        other,
    );
    level
}

// The nesting left for a node's second part; 0 if it has none.
#[tactic(auto, using(crate::proofs::ValueBranches::second_left_branches, limits::proofs::BranchTests::tests))]
fn second_left(parts: u8, left: usize) -> usize
    ensures { result ≡ second_left parts left }
{
    if parts < 2 { 0 } else { left.saturating_sub(1) }
}

// Writes the column of the formula at `at`, nested at most `left` deep, up to its period.
#[tactic(auto, using(crate::proofs::ValueBranches::column_at_branches))]
fn column_at(rows: &Rows, at: usize, left: usize, out: &mut [u8]) -> Reached
    requires { rows.now.count ≤ length out.old }
    ensures value { result ≡ reached rows.now left at }
    ensures out_after { take (span rows.now (formula rows.now left at)) out.new
        ≡ column rows.now (span rows.now (formula rows.now left at)) (formula rows.now left at) }
{
    if let Some(level) = leaf_column(rows, at, left, out) {
        return Reached {
            end: end_at(rows.image, at, left),
            level,
        };
    }
    let node = node_at(rows.image, at);
    let p = column_at(rows, node.next, left - 1, out);
    let rest = second_left(node.parts, left);
    if rows.count <= Block::FEW {
        let mut b: [u8; Block::FEW] = [0; Block::FEW];
        let e = column_at(rows, p.end, rest, &mut b);
        let level = join_columns(rows, node, p.level, e.level, out, &mut b);
        return Reached { end: e.end, level };
    }
    let mut b: [u8; Block::ROWS] = [0; Block::ROWS];
    let e = column_at(rows, p.end, rest, &mut b);
    let level = join_columns(rows, node, p.level, e.level, out, &mut b);
    Reached { end: e.end, level }
}

// Writes the column of the formula at `at`, nested at most `left` deep, for all rows.
#[tactic(auto, using(crate::proofs::ValueBranches::whole_column_branches))]
pub fn whole_column(rows: &Rows, at: usize, left: usize, out: &mut [u8])
    requires { rows.now.count ≤ length out.old }
    ensures { take rows.now.count out.new ≡ column rows.now rows.now.count (formula rows.now left at) }
{
    let p = column_at(rows, at, left, out);
    widen(span_of(rows.lasts, p.level, rows.count), rows.count, out);
}

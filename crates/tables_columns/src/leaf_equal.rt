// Equality of two leaves by an iterative walk, node by node from left to right. It needs no recursion up to NODES nodes, which is enough
// for most leaves; larger ones are compared by `same_at`.
ghost use Rattle.std.specs.Prelude.{◌≡◌, ◌-◌, ◌≤◌};
ghost use Rattle.formula.specs.Tree.{node_at, parse_tree};
ghost use Rattle.formula_compare.specs.Same.{same_tree, pair_of};
ghost use Rattle.tables_columns.specs.LeafEqual.{step_of};

use formula::node::node_at;
use formula_compare::same::{Pair, pair_nodes, same_at};

// The bound of the walk.
#[derive(Drop)]
pub struct Walk {}

impl Walk {
    // The greatest number of nodes walked. It is the nesting limit, since a walk over n nodes uses up at most n levels.
    pub const NODES: usize = 16;
}

// The positions of the next two nodes, and the number of parts still to be compared.
#[derive(Clone, Copy)]
pub struct Step {
    pub first: usize,
    pub second: usize,
    pub due: usize,
}

// The step after a pair of nodes, where `due` parts, this one included, were to be compared; none if they differ.
#[tactic(auto, using(crate::proofs::LeafEqualBranches::step_by_branches, limits::proofs::BranchTests::tests))]
fn step_by(pair: Pair, due: usize) -> Option<Step>
    requires { due ≤ 17 }
    ensures { result ≡ step_of pair due }
{
    let (first, second, due) = match pair {
        Pair::Differ => return None,
        Pair::Ended(p, q) => (p, q, due.saturating_sub(1)),
        Pair::One(p, q) => (p, q, due),
        Pair::Two(p, q) => (p, q, due + 1),
    };
    Some(Step { first, second, due })
}

// The step after the two nodes of a step; none if they differ.
fn step_after(image: &[u8], step: Step) -> Option<Step>
    requires { step.due ≤ 17 }
    ensures { result ≡ step_of (pair_of (node_at image.now step.first) (node_at image.now step.second)) step.due }
{
    step_by(
        pair_nodes(node_at(image, step.first), node_at(image, step.second)),
        step.due,
    )
}

// The number of nodes that can be walked without using up the nesting of either formula.
fn nodes_within(left: usize, other_left: usize) -> usize
    ensures { (result ≤ left) × ((result ≤ other_left) × (result ≤ 16)) }
{
    left.min(other_left).min(Walk::NODES)
}

// `at` and `left` are handed on to a recursion that takes them apart, so no struct holds them here.
// Whether two formulas are equal, by recursion over their parts, however many nodes they have.
#[tactic(auto, using(crate::proofs::LeafEqualBranches::parts_told))]
fn same_parts(image: &[u8], at: usize, left: usize, other_at: usize, other_left: usize) -> bool
    ensures { result ≡ same_tree (parse_tree image.now left at).tree
        (parse_tree image.now other_left other_at).tree }
{
    same_at(image, at, left, other_at, other_left).is_some()
}

// Whether the formulas at `at`, nested at most `at_left` deep, and at `other_at`, nested at most `other_left` deep, are equal.
pub fn same_leaf(
    image: &[u8],
    at: usize,
    at_left: usize,
    other_at: usize,
    other_left: usize,
) -> bool
    ensures { result ≡ same_tree (parse_tree image.now at_left at).tree
        (parse_tree image.now other_left other_at).tree }
{
    let mut step = Step {
        first: at,
        second: other_at,
        due: 1,
    };
    for _walked in 0..nodes_within(at_left, other_left) {
        let Some(next) = step_after(image, step) else {
            return false;
        };
        if next.due == 0 {
            return true;
        }
        step = next;
    }
    same_parts(image, at, at_left, other_at, other_left)
}

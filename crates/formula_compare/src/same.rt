// Equality of two formulas. Equality of bytes and of trees is the same, since the bytes are the tree in prefix form.
#![tactic(auto, using(crate::proofs::ByPair::same_ways))]

ghost use Rattle.std.specs.Prelude.{◌≡◌};
ghost use Rattle.formula.specs.Tree.{parse_tree};
ghost use Rattle.formula_compare.specs.Same.{pair_of, pair_at, same_of};

use formula::node::{Node, node_at};

// Two nodes compared: they differ; or they are equal with no, one or two parts, and the positions past their own bytes.
#[derive(Clone, Copy)]
pub enum Pair {
    Differ,
    Ended(usize, usize),
    One(usize, usize),
    Two(usize, usize),
}

// Compares two nodes.
#[tactic(auto, using(limits::proofs::BranchTests::tests), unfolding(crate::specs::Same::pair_of))]
pub fn pair_nodes(node: Node, other: Node) -> Pair
    ensures { result ≡ pair_of node other }
{
    if node.code != other.code || node.operand != other.operand {
        return Pair::Differ;
    }
    match node.parts {
        0 => Pair::Ended(node.next, other.next),
        1 => Pair::One(node.next, other.next),
        _ => Pair::Two(node.next, other.next),
    }
}

// `at` and `left` change apart from each other at each step of the recursion, so a struct of them would be taken apart in every call.
// Compares the nodes at `at` and `other_at`. With no nesting left there is no node, which equals no node alone.
pub fn pair_at(image: &[u8], at: usize, left: usize, other_at: usize, other_left: usize) -> Pair
    ensures { result ≡ pair_at image.now at left other_at other_left }
{
    match (left, other_left) {
        (0, 0) => Pair::Ended(at, other_at),
        (0, _) | (_, 0) => Pair::Differ,
        _ => pair_nodes(node_at(image, at), node_at(image, other_at)),
    }
}

// The positions past the formulas at `at`, nested at most `left` deep, and at `other_at`, nested at most `other_left` deep, if the two are
// equal.
pub fn same_at(
    image: &[u8],
    at: usize,
    left: usize,
    other_at: usize,
    other_left: usize,
) -> Option<(usize, usize)>
    ensures { result ≡ same_of (parse_tree image.now left at) (parse_tree image.now other_left other_at) }
{
    match pair_at(image, at, left, other_at, other_left) {
        Pair::Differ => None,
        Pair::Ended(p, q) => Some((p, q)),
        Pair::One(p, q) => same_at(image, p, left - 1, q, other_left - 1),
        Pair::Two(p, q) => {
            let (p2, q2) = same_at(image, p, left - 1, q, other_left - 1)?;
            same_at(image, p2, left - 1, q2, other_left - 1)
        }
    }
}

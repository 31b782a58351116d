// The nodes of formulas, by their positions.
#![tactic(auto, using(crate::proofs::NodeBranches::node_ways))]

ghost use Rattle.std.specs.Prelude.{◌≡◌};
ghost use Rattle.formula.specs.Tree.{node_at};

use crate::code::{has_operand, parts};
use limits::read::u8_at;

// A node: its code and operand (0 where it has none), the number of its parts, and the position past its own bytes.
// The trees of the specs (`Tree`) have 0 for no operand too, so that equal nodes have equal operands, and no Option says so.
#[derive(Clone, Copy)]
pub struct Node {
    pub code: u8,
    pub operand: u8,
    pub parts: u8,
    pub next: usize,
}

// The node at `at`. Past the end it is a leaf of no bytes, so that every walk over a formula is total.
pub fn node_at(image: &[u8], at: usize) -> Node
    ensures { result ≡ node_at image.now at }
{
    if image.len() <= at {
        return Node {
            code: 0,
            operand: 0,
            parts: 0,
            next: at,
        };
    }
    let code = image[at];
    if has_operand(code) {
        return Node {
            code,
            operand: u8_at(image, at + 1),
            parts: parts(code),
            next: at + 2,
        };
    }
    Node {
        code,
        operand: 0,
        parts: parts(code),
        next: at + 1,
    }
}

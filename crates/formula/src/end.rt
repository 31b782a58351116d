// The end of a formula.
#![tactic(auto, using(crate::proofs::EndBranches::end_ways))]

ghost use Rattle.std.specs.Prelude.{◌≡◌};
ghost use Rattle.formula.specs.Tree.{parse_tree};

use crate::node::node_at;

// `at` and `left` change apart from each other at each step of the recursion, so a struct of them would be taken apart in every call.
// The position past the formula at `at`, nested at most `left` deep; its bytes are not checked.
pub fn end_at(image: &[u8], at: usize, left: usize) -> usize
    ensures { result ≡ (parse_tree image.now left at).end }
{
    if left == 0 {
        return at;
    }
    let node = node_at(image, at);
    if node.parts == 0 {
        return node.next;
    }
    let m = end_at(image, node.next, left - 1);
    if node.parts == 1 {
        return m;
    }
    end_at(image, m, left - 1)
}

// Substitution of formulas for names, all at once. Its result is compared with a formula of the image and never built.
#![tactic(auto, using(crate::proofs::ByPair::replace_ways))]

ghost use Rattle.std.specs.Prelude.{◌≡◌};
ghost use Rattle.formula.specs.Codes.{part_count};
ghost use Rattle.formula.specs.Tree.{parse_tree};
ghost use Rattle.formula_compare.specs.Same.{same_of};
ghost use Rattle.formula_compare.specs.Replace.{is_named, replacing_of, hit_at, leaf_only, stands_for, replaced_of};

use crate::same::{Pair, pair_at, same_at};
use formula::code::Code;
use formula::node::node_at;

// What a name is replaced by: the formula at a position, nested at most this deep, or a word's value.
#[derive(Clone, Copy, PartialEq, Eq)]
pub enum Replacing {
    Formula(usize, usize),
    Word(u8),
}

// A name: a word's value or a register, by its number.
#[derive(Clone, Copy, PartialEq, Eq)]
pub enum Name {
    Word(u8),
    Register(u8),
}

impl Name {
    // Whether a node with this code and operand is the name.
    #[tactic(auto, using(limits::proofs::BranchTests::tests), unfolding(crate::specs::Replace::is_named))]
    fn is_node(self, code: u8, operand: u8) -> bool
        ensures { result ≡ is_named self code operand }
    {
        match self {
            Name::Word(word) => code == Code::WORD && operand == word,
            Name::Register(register) => code == Code::REG && operand == register,
        }
    }
}

// A substitution: a name and what it is replaced by, and perhaps a register besides, by its number, and what that is replaced by.
#[derive(Clone, Copy)]
pub struct Substitution {
    pub name: Name,
    pub by: Replacing,
    pub second: Option<(u8, Replacing)>,
}

impl Substitution {
    // What replaces a node with this code and operand, if it is a name of the substitution.
    #[tactic(auto, using(limits::proofs::BranchTests::tests), unfolding(crate::specs::Replace::replacing_of))]
    fn replacing(&self, code: u8, operand: u8) -> Option<Replacing>
        ensures { result ≡ replacing_of self.now code operand }
    {
        if self.name.is_node(code, operand) {
            return Some(self.by);
        }
        let (register, with) = self.second?;
        if Name::Register(register).is_node(code, operand) {
            return Some(with);
        }
        None
    }
}

// `at` and `left` change apart from each other at each step of the recursion, so a struct of them would be taken apart in every call.
// If the node at `at` is a name that the substitution replaces, the position past it and what replaces it.
#[tactic(auto, using(limits::proofs::BranchTests::tests), unfolding(crate::specs::Replace::hit_at))]
pub fn hit_at(
    image: &[u8],
    at: usize,
    left: usize,
    substitution: &Substitution,
) -> Option<(usize, Replacing)>
    ensures { result ≡ hit_at image.now at left substitution.now }
{
    if left == 0 {
        return None;
    }
    let node = node_at(image, at);
    let by = substitution.replacing(node.code, node.operand)?;
    Some((node.next, by))
}

// Whether the formula at `other_at` is the leaf with this code, which has no parts, and this operand; if so, 0 and the position past it.
pub fn leaf_stands(
    image: &[u8],
    code: u8,
    number: u8,
    other_at: usize,
    other_left: usize,
) -> Option<(usize, usize)>
    requires { part_count code ≡ 0 }
    ensures { result ≡ same_of (leaf_only code number) (parse_tree image.now other_left other_at) }
{
    if other_left == 0 {
        return None;
    }
    let node = node_at(image, other_at);
    if node.code == code && node.operand == number {
        return Some((0, node.next));
    }
    None
}

// Whether the formula at `other_at` is what replaces a name; if so, the positions past both.
pub fn stands_at(
    image: &[u8],
    replacing: Replacing,
    other_at: usize,
    other_left: usize,
) -> Option<(usize, usize)>
    ensures { result ≡ same_of (stands_for image.now replacing) (parse_tree image.now other_left other_at) }
{
    match replacing {
        Replacing::Formula(at, left) => same_at(image, at, left, other_at, other_left),
        Replacing::Word(number) => leaf_stands(image, Code::WORD, number, other_at, other_left),
    }
}

// The positions past the formulas at `at` and `other_at`, if the second is the first after the substitution, which
// each node is handed by reference.
fn replaced_from(
    image: &[u8],
    at: usize,
    left: usize,
    other_at: usize,
    other_left: usize,
    substitution: &Substitution,
) -> Option<(usize, usize)>
    ensures { result ≡ replaced_of image.now substitution.now (parse_tree image.now left at)
        (parse_tree image.now other_left other_at) }
{
    if let Some((past, by)) = hit_at(image, at, left, substitution) {
        let (_, q) = stands_at(image, by, other_at, other_left)?;
        return Some((past, q));
    }
    match pair_at(image, at, left, other_at, other_left) {
        Pair::Differ => None,
        Pair::Ended(p, q) => Some((p, q)),
        Pair::One(p, q) => replaced_from(image, p, left - 1, q, other_left - 1, substitution),
        Pair::Two(p, q) => {
            let (p2, q2) = replaced_from(image, p, left - 1, q, other_left - 1, substitution)?;
            replaced_from(image, p2, left - 1, q2, other_left - 1, substitution)
        }
    }
}

// The positions past the formulas at `at` and `other_at`, if the second is the first after the substitution.
pub fn replaced_at(
    image: &[u8],
    at: usize,
    left: usize,
    other_at: usize,
    other_left: usize,
    substitution: Substitution,
) -> Option<(usize, usize)>
    ensures { result ≡ replaced_of image.now substitution (parse_tree image.now left at)
        (parse_tree image.now other_left other_at) }
{
    replaced_from(image, at, left, other_at, other_left, &substitution)
}

// Search for nodes in a formula.
#![tactic(auto, using(crate::proofs::OccursBranches::occurs_ways))]

ghost use Rattle.std.specs.Prelude.{◌≡◌};
ghost use Rattle.formula.specs.Tree.{parse_tree};
ghost use Rattle.formula_compare.specs.Occurs.{owner_of, operand_numbered, is_queried, past_without, occurs};

use formula::code::contains;
use formula::node::node_at;
use limits::read::u8_at;

// What is looked for: nodes with one of some codes and an operand that is sought.
#[derive(Clone, Copy)]
pub struct Query {
    pub codes: u32,
    pub operand: Operand,
}

// Which operands a query looks for: any, this number, or the registers that this thread does not own.
#[derive(Clone, Copy, PartialEq, Eq)]
pub enum Operand {
    Any,
    Equal(u8),
    Foreign(u8),
}

impl Operand {
    // What is sought, by its number and the number or thread that goes with it: 0 any, 1 this number, and every other one a register that
    // this thread does not own. A caller that keeps the kind as a number can pass any number.
    #[tactic(auto, using(limits::proofs::BranchTests::tests), unfolding(crate::specs::Occurs::operand_numbered))]
    pub fn numbered(kind: u8, number: u8) -> Operand
        ensures { result ≡ operand_numbered kind number }
    {
        match kind {
            0 => Operand::Any,
            1 => Operand::Equal(number),
            _ => Operand::Foreign(number),
        }
    }
}

// The thread that owns a register; 0 where there is no such register.
#[tactic(auto, using(limits::proofs::BranchTests::tests), unfolding(crate::specs::Occurs::owner_of))]
pub fn owner(owners: &[u8], register: u8) -> u8
    ensures { result ≡ owner_of owners.now register }
{
    if register == 0 {
        return 0;
    }
    u8_at(owners, usize::from(register - 1))
}

// Whether the query looks for a node with this code and operand.
#[tactic(auto, using(limits::proofs::BranchTests::tests), unfolding(crate::specs::Occurs::is_queried))]
pub fn is_queried(query: &Query, owners: &[u8], code: u8, operand: u8) -> bool
    ensures { result ≡ is_queried query.now owners.now code operand }
{
    if !contains(query.codes, code) {
        return false;
    }
    match query.operand {
        Operand::Any => true,
        Operand::Equal(number) => operand == number,
        Operand::Foreign(thread) => owner(owners, operand) != thread,
    }
}

// `at` and `left` change apart from each other at each step of the recursion, so a struct of them would be taken apart in every call.
// The position past the formula at `at`, nested at most `left` deep, if no node of the query is in it.
pub fn past_without(
    image: &[u8],
    at: usize,
    left: usize,
    query: &Query,
    owners: &[u8],
) -> Option<usize>
    ensures { result ≡ past_without query.now owners.now (parse_tree image.now left at) }
{
    if left == 0 {
        return Some(at);
    }
    let node = node_at(image, at);
    if is_queried(query, owners, node.code, node.operand) {
        return None;
    }
    if node.parts == 0 {
        return Some(node.next);
    }
    let past = past_without(image, node.next, left - 1, query, owners)?;
    if node.parts == 1 {
        return Some(past);
    }
    past_without(image, past, left - 1, query, owners)
}

// Whether a node of the query occurs in the formula at `at`, nested at most `left` deep.
pub fn occurs_at(image: &[u8], at: usize, left: usize, query: &Query, owners: &[u8]) -> bool
    ensures { result ≡ occurs query.now owners.now (parse_tree image.now left at).tree }
{
    past_without(image, at, left, query, owners).is_none()
}

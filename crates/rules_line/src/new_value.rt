// The side condition of rules 48 and 49: a value is that of the new write, as it reads after the step.
#![tactic(auto, using(crate::proofs::NewValueBranches::new_value_branches))]

ghost use Rattle.std.specs.Prelude.{◌≡◌};
ghost use Rattle.formula.specs.Tree.{parse_tree};
ghost use Rattle.rules_line.specs.NewValue.{formula_is, sum_is, fresh_is};
ghost use Rattle.rules_line.specs.SideTests.{tree_of};

use crate::side_tests::Position;
use formula::code::Code;
use formula::node::node_at;
use formula_compare::replace::leaf_stands;
use formula_compare::same::same_at;
use image_header::instruction::Instruction;
use limits::Limits;

// The formula at `at`, with nesting `left`, is the one at `formula`.
fn is_formula(image: &[u8], formula: usize, at: usize, left: usize) -> bool
    ensures { result ≡ formula_is image.now formula (parse_tree image.now left at).tree }
{
    same_at(image, formula, Limits::NESTING, at, left).is_some()
}

// The formula at `at`, with nesting `left`, is the sum of the register and the formula at `formula`.
fn is_sum(image: &[u8], register: u8, formula: usize, at: usize, left: usize) -> bool
    ensures { result ≡ sum_is image.now register formula (parse_tree image.now left at).tree }
{
    if left == 0 {
        return false;
    }
    let node = node_at(image, at);
    if node.code != Code::SUM || node.operand != 0 {
        return false;
    }
    match leaf_stands(image, Code::REG, register, node.next, left - 1) {
        None => false,
        Some(past) => is_formula(image, formula, past.1, left - 1),
    }
}

// The formula at `position` is the new write's value: for fetch-add the result register plus the operand, else the operand.
pub fn is_new_value(
    image: &[u8],
    operation: u8,
    register: u8,
    formula: usize,
    position: Position,
) -> bool
    ensures { result ≡ fresh_is image.now operation register formula (tree_of image.now position) }
{
    if operation == Instruction::FETCH_ADD {
        is_sum(image, register, formula, position.at, position.left)
    } else {
        is_formula(image, formula, position.at, position.left)
    }
}

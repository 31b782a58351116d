// The tests that side conditions are made of, on the formulas that fill the holes.
#![tactic(auto, using(crate::proofs::SideTestBranches::side_tests_branches))]

ghost use Rattle.std.specs.Prelude.{◌≡◌, ◌<◌};
ghost use Rattle.rules_line.specs.SideTests.{hole_of, number_in, tree_of, apart, keeps, one_by, is_with, stored_by, is_start};

use formula::code::Code;
use formula_compare::has::{has_flag, has_register, has_word};
use formula_compare::replace::{Name, Replacing, Substitution, leaf_stands, replaced_at};
use formula_match::bind::Bind;
use image_header::header::start_value;
use image_header::instruction::Instruction;
use limits::Limits;

// A formula in the image: where it begins, and the nesting that is left there.
#[derive(Clone, Copy)]
pub struct Position {
    pub at: usize,
    pub left: usize,
}

// The position of the formula in hole `j`; its nesting is 0 where the hole has taken none.
// `j < 5` stays a clause: each caller names a hole by a constant, for which the bound is found at once.
pub fn hole_of(bind: Bind, j: usize) -> Position
    requires { j < 5 }
    ensures { result ≡ hole_of bind j }
{
    Position {
        at: bind.at[j],
        left: usize::from(bind.left[j]),
    }
}

// Neither the word, in any role, nor the result register of an exchange or a fetch-add occurs in the formula.
pub fn is_absent(image: &[u8], operation: u8, word: u8, register: u8, position: Position) -> bool
    ensures { result ≡ apart operation word register (tree_of image.now position) }
{
    !has_word(image, position.at, position.left, word)
        && (operation <= Instruction::BRANCH
            || Instruction::FETCH_ADD < operation
            || !has_register(image, position.at, position.left, register))
}

// Rule 1: a load preserves P if its register does not occur in P; a store or swap, if its word and its result register do not.
pub fn is_preserved(image: &[u8], operation: u8, word: u8, register: u8, position: Position) -> bool
    ensures { result ≡ keeps operation word register (tree_of image.now position) }
{
    if operation < Instruction::LOAD {
        return false;
    }
    if operation <= Instruction::ACQUIRE {
        return !has_register(image, position.at, position.left, register);
    }
    if operation == Instruction::BRANCH {
        return false;
    }
    if operation <= Instruction::FETCH_ADD {
        return is_absent(image, operation, word, register, position);
    }
    false
}

// The substitution for one name alone, a word or a register.
#[tactic(auto, unfolding(crate::specs::SideTests::one_by))]
pub fn one_name(name: Name, by: Replacing) -> Substitution
    ensures { result ≡ one_by name by }
{
    Substitution {
        name,
        by,
        second: None,
    }
}

// The formula at `position` is the one at `other` after the substitution.
pub fn is_with(
    image: &[u8],
    position: Position,
    other: Position,
    substitution: Substitution,
) -> bool
    ensures { result ≡ is_with image.now substitution (tree_of image.now position)
        (tree_of image.now other) }
{
    replaced_at(
        image,
        other.at,
        other.left,
        position.at,
        position.left,
        substitution,
    )
    .is_some()
}

// Rule 9: the test at `position` is the one at `other` with the word replaced by the formula, and neither flag of the word is in that one.
pub fn is_substituted(
    image: &[u8],
    position: Position,
    other: Position,
    word: u8,
    formula: usize,
) -> bool
    ensures { result ≡ stored_by image.now word formula (tree_of image.now position)
        (tree_of image.now other) }
{
    let substitution = one_name(
        Name::Word(word),
        Replacing::Formula(formula, Limits::NESTING),
    );
    !has_flag(image, other.at, other.left, word) && is_with(image, position, other, substitution)
}

// The number in hole `j`; 0 where the hole has taken none.
pub fn number_in(bind: Bind, j: usize) -> usize
    requires { j < 5 }
    ensures { result ≡ number_in bind j }
{
    usize::from(bind.num[j]).saturating_sub(1)
}

// Rule 26: the formula is the constant that the header gives as the word's start value.
pub fn is_start(image: &[u8], header: &[u8], position: Position, word: usize) -> bool
    ensures { result ≡ is_start header.now word (tree_of image.now position) }
{
    leaf_stands(
        image,
        Code::CONST,
        start_value(header, word),
        position.at,
        position.left,
    )
    .is_some()
}

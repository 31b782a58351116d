// What occurs in a formula: a name in a role, or `start`. Only a search by owners needs the list of owners; the others pass an empty one.
ghost use Rattle.std.specs.Prelude.{◌≡◌, []};
ghost use Rattle.formula.specs.Tree.{parse_tree};
ghost use Rattle.formula_compare.specs.Occurs.{occurs, register, word_any_role, flag, start, shared, foreign};

use crate::occurs::{Operand, Query, occurs_at};
use formula::code::Code;

// The codes whose operand is a word: each is a role that a word may have.
#[derive(Drop)]
pub struct Roles {}

impl Roles {
    pub const WORD: u32 = (1 << Code::WORD)
        + (1 << Code::UNSYNC)
        + (1 << Code::COV)
        + (1 << Code::ONE);
}

// `at` and `left` are handed on to a recursion that takes them apart, so no struct holds them here.
// Whether register `number` occurs in the formula at `at`.
pub fn has_register(image: &[u8], at: usize, left: usize, number: u8) -> bool
    ensures { result ≡ occurs (register number) [] (parse_tree image.now left at).tree }
{
    let query = Query {
        codes: 1 << Code::REG,
        operand: Operand::Equal(number),
    };
    occurs_at(image, at, left, &query, &image[0..0])
}

// Whether word `number` occurs in the formula at `at` in any role: its value, a flag, or one(x).
pub fn has_word(image: &[u8], at: usize, left: usize, number: u8) -> bool
    ensures { result ≡ occurs (word_any_role number) [] (parse_tree image.now left at).tree }
{
    let query = Query {
        codes: Roles::WORD,
        operand: Operand::Equal(number),
    };
    occurs_at(image, at, left, &query, &image[0..0])
}

// Whether a flag of word `number`, unsync or cov, occurs in the formula at `at`.
pub fn has_flag(image: &[u8], at: usize, left: usize, number: u8) -> bool
    ensures { result ≡ occurs (flag number) [] (parse_tree image.now left at).tree }
{
    let query = Query {
        codes: (1 << Code::UNSYNC) + (1 << Code::COV),
        operand: Operand::Equal(number),
    };
    occurs_at(image, at, left, &query, &image[0..0])
}

// Whether start occurs in the formula at `at`.
pub fn has_start(image: &[u8], at: usize, left: usize) -> bool
    ensures { result ≡ occurs start [] (parse_tree image.now left at).tree }
{
    let query = Query {
        codes: 1 << Code::START,
        operand: Operand::Any,
    };
    occurs_at(image, at, left, &query, &image[0..0])
}

// Whether any word occurs in the formula at `at`, in any role.
pub fn has_shared(image: &[u8], at: usize, left: usize) -> bool
    ensures { result ≡ occurs shared [] (parse_tree image.now left at).tree }
{
    let query = Query {
        codes: Roles::WORD,
        operand: Operand::Any,
    };
    occurs_at(image, at, left, &query, &image[0..0])
}

// Whether a register that `thread` does not own occurs in the formula at `at`; `owners` has the owner of each register.
pub fn has_foreign(image: &[u8], at: usize, left: usize, thread: u8, owners: &[u8]) -> bool
    ensures { result ≡ occurs (foreign thread) owners.now (parse_tree image.now left at).tree }
{
    let query = Query {
        codes: 1 << Code::REG,
        operand: Operand::Foreign(thread),
    };
    occurs_at(image, at, left, &query, owners)
}

// One instruction: operation, a, b, formula; operations 9 to 12 are followed by a second half of the same form. Unused fields are 0.
#![tactic(auto, using(crate::proofs::InstructionBranches::instruction_branches, limits::proofs::BranchTests::tests))]

ghost use Rattle.std.specs.Prelude.{◌≡◌, ◌≤◌};
ghost use Rattle.image_header.specs.Instruction.{twofold, pair_operation, first_operation, instruction_size, half, second_half, instruction, fields_of, fields_fit, inside, half_fits, second_fits, ranged};

use crate::sizes::Sizes;
use limits::range::in_range;
use limits::read::{rest, u8_at, u16_at};

// The five bytes of a second half: an assignment that is made in the same step as the first half.
#[derive(Clone, Copy)]
pub struct Half {
    pub operation: u8,
    pub a: u8,
    pub b: u8,
    pub formula: usize,
}

// The second half of an instruction that has none: its formula is 0, which names no formula. No Option: the definitions `sorted`
// (image_bodies), `acting_of` (image_access) and `worked_out` (replay_machine) read a second half in every instruction, without a case.
pub const NO_HALF: Half = Half {
    operation: 0,
    a: 0,
    b: 0,
    formula: 0,
};

// An instruction as the image has it; operations without a second half have NO_HALF.
#[derive(Clone, Copy)]
pub struct Instruction {
    pub operation: u8,
    pub a: u8,
    pub b: u8,
    pub formula: usize,
    pub second: Half,
}

// Operations are numbers and no enum: an instruction is read before it is checked, so its first byte may be no operation.
impl Instruction {
    // Register a := formula.
    pub const ASSIGN: u8 = 0;

    // Relaxed load into register a of word b.
    pub const LOAD: u8 = 1;

    // Acquiring load into register a of word b.
    pub const ACQUIRE: u8 = 2;

    // Relaxed store of the formula to word a.
    pub const STORE: u8 = 3;

    // Releasing store of the formula to word a.
    pub const RELEASE: u8 = 4;

    // Swap of the formula into word a.
    pub const SWAP: u8 = 5;

    // Branch on the formula to point a.
    pub const BRANCH: u8 = 6;

    // Swap of the formula into word a; the old value goes into register b.
    pub const EXCHANGE: u8 = 7;

    // Store of the old value of word a plus the formula; the old value goes into register b.
    pub const FETCH_ADD: u8 = 8;

    // Store, releasing store and swap, each with an assignment in the same step.
    pub const PAIR_STORE: u8 = 9;

    pub const PAIR_RELEASE: u8 = 10;

    pub const PAIR_SWAP: u8 = 11;

    // Two assignments in one step.
    pub const ASSIGN_TWO: u8 = 12;

    // The number of bytes of a half.
    pub const HALF: usize = 5;
}

// The instruction at a point that has none: a branch to point 0.
pub const NOTHING: Instruction = Instruction {
    operation: Instruction::BRANCH,
    a: 0,
    b: 0,
    formula: 0,
    second: NO_HALF,
};

// The range of a field, both ends included.
#[derive(Clone, Copy)]
pub struct Range {
    pub low: usize,
    pub high: usize,
}

// The range of each field of an instruction.
#[derive(Clone, Copy)]
pub struct Fields {
    pub a: Range,
    pub b: Range,
    pub formula: Range,
}

// Whether the operation has a second half: operations 9 to 12.
#[tactic(auto, using(limits::proofs::BranchTests::tests), unfolding(crate::specs::Instruction::twofold))]
pub fn is_twofold(operation: u8) -> bool
    ensures { result ≡ twofold operation }
{
    Instruction::PAIR_STORE <= operation && operation <= Instruction::ASSIGN_TWO
}

// Whether the operation is a store, a releasing store or a swap paired with an assignment: operations 9 to 11.
#[tactic(auto, using(limits::proofs::BranchTests::tests), unfolding(crate::specs::Instruction::pair_operation))]
pub fn is_pair(operation: u8) -> bool
    ensures { result ≡ pair_operation operation }
{
    Instruction::PAIR_STORE <= operation && operation <= Instruction::PAIR_SWAP
}

// The operation of a pair's first half; any other operation is its own.
#[tactic(auto, using(limits::proofs::BranchTests::tests), unfolding(crate::specs::Instruction::first_operation))]
pub fn first_operation(operation: u8) -> u8
    ensures { result ≡ first_operation operation }
{
    match operation {
        Instruction::PAIR_STORE => Instruction::STORE,
        Instruction::PAIR_RELEASE => Instruction::RELEASE,
        Instruction::PAIR_SWAP => Instruction::SWAP,
        _ => operation,
    }
}

// The number of bytes of an instruction, by its operation; an unknown operation has five.
pub fn instruction_size(operation: u8) -> usize
    ensures { (result ≡ instruction_size operation) × (result ≤ 10) }
{
    if is_twofold(operation) {
        2 * Instruction::HALF
    } else {
        Instruction::HALF
    }
}

// The half in the first five bytes of `body`.
fn read_half(body: &[u8]) -> Half
    ensures { result ≡ half body.now }
{
    Half {
        operation: u8_at(body, 0),
        a: u8_at(body, 1),
        b: u8_at(body, 2),
        formula: u16_at(body, 3),
    }
}

// The second half of the instruction at the start of `body`; NO_HALF if its operation has none.
fn second_half(operation: u8, body: &[u8]) -> Half
    ensures { result ≡ second_half operation body.now }
{
    if is_twofold(operation) {
        read_half(rest(body, Instruction::HALF))
    } else {
        NO_HALF
    }
}

// The instruction at the start of `body`.
pub fn read_instruction(body: &[u8]) -> Instruction
    ensures { result ≡ instruction body.now }
{
    let operation = u8_at(body, 0);
    Instruction {
        operation,
        a: u8_at(body, 1),
        b: u8_at(body, 2),
        formula: u16_at(body, 3),
        second: second_half(operation, body),
    }
}

// The ranges of an operation's fields in a thread whose last point is `last`. For an unknown operation field a has an empty range.
#[tactic(auto, using(limits::proofs::BranchTests::tests), unfolding(crate::specs::Instruction::fields_of))]
pub fn fields_of(operation: u8, last: usize, sizes: Sizes) -> Fields
    ensures { result ≡ fields_of operation last sizes }
{
    let unused = Range { low: 0, high: 0 };
    let register = Range {
        low: 1,
        high: usize::from(sizes.registers),
    };
    let word = Range {
        low: 1,
        high: usize::from(sizes.words),
    };
    let formula = Range {
        low: 1,
        high: usize::from(sizes.formulas),
    };
    let (a, b, formula) = match operation {
        Instruction::ASSIGN | Instruction::ASSIGN_TWO => (register, unused, formula),
        Instruction::LOAD..=Instruction::ACQUIRE => (register, word, unused),
        Instruction::BRANCH => (Range { low: 0, high: last }, unused, formula),
        Instruction::EXCHANGE..=Instruction::FETCH_ADD => (word, register, formula),
        Instruction::STORE..=Instruction::SWAP | Instruction::PAIR_STORE..=Instruction::PAIR_SWAP =>
            (word, unused, formula),
        _ => (Range { low: 1, high: 0 }, unused, formula),
    };
    Fields { a, b, formula }
}

// Whether the number is in the range.
fn inside(number: usize, range: Range) -> bool
    ensures { result ≡ inside range number }
{
    in_range(number, range.low, range.high)
}

// Whether the three fields are in their ranges.
#[tactic(auto, using(image_frames::proofs::Branches::Checks::joined), unfolding(crate::specs::Instruction::fields_fit))]
fn fields_fit(instruction: Instruction, fields: Fields) -> bool
    ensures { result ≡ fields_fit instruction fields }
{
    inside(usize::from(instruction.a), fields.a)
        && inside(usize::from(instruction.b), fields.b)
        && inside(instruction.formula, fields.formula)
}

// Whether a second half is an assignment with its fields in range.
#[tactic(auto, using(crate::proofs::InstructionBranches::half_fits_search), unfolding(crate::specs::Instruction::half_fits))]
fn half_fits(half: Half, sizes: Sizes) -> bool
    ensures { result ≡ half_fits sizes half }
{
    half.operation == Instruction::ASSIGN
        && in_range(usize::from(half.a), 1, usize::from(sizes.registers))
        && half.b == 0
        && in_range(half.formula, 1, usize::from(sizes.formulas))
}

// Whether the second half, if the operation has one, is in range; the registers of two assignments must differ.
#[tactic(auto, using(crate::proofs::InstructionBranches::second_fits_branches, limits::proofs::BranchTests::tests))]
fn second_fits(instruction: Instruction, sizes: Sizes) -> bool
    ensures { result ≡ second_fits sizes instruction }
{
    let second = instruction.second;
    !is_twofold(instruction.operation)
        || half_fits(second, sizes)
            && (instruction.operation != Instruction::ASSIGN_TWO || instruction.a != second.a)
}

// Whether every field of the instruction, and of its second half, is in its range.
#[tactic(auto, using(crate::proofs::InstructionBranches::instruction_fits_branches, limits::proofs::BranchTests::tests))]
pub fn instruction_fits(instruction: Instruction, last: usize, sizes: Sizes) -> bool
    ensures { result ≡ ranged last sizes instruction }
{
    fields_fit(instruction, fields_of(instruction.operation, last, sizes))
        && second_fits(instruction, sizes)
}

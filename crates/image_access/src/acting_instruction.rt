// The instruction of a triple: its operation, word and register, the position of its formula, and its second half.
ghost use Rattle.std.specs.Prelude.{◌≡◌};
ghost use Rattle.image_frames.specs.Records.{bodies};
ghost use Rattle.image_bodies.specs.RecordPlaces.{instruction_of};
ghost use Rattle.image_access.specs.AccessPlaces.{register_first, acting_of};

use crate::formula_position::formula_at;
use image_bodies::instruction_at::instruction_of;
use image_header::instruction::{Instruction, first_operation};
use image_header::sizes::Sizes;
use image_index::indexed::Indexed;

// An instruction by the roles of its fields. A field that the operation does not use is 0, a formula that it lacks the end of the image.
// Of a pair, `operation` is the first half's and `whole` the pair's.
#[derive(Clone, Copy)]
pub struct Acting {
    pub operation: u8,
    pub whole: u8,
    pub word: u8,
    pub register: u8,
    pub formula: usize,
    // The register that the second half sets, and the position of the formula that it is set to.
    pub noted: u8,
    pub note: usize,
}

// Whether the operation's field a is its register: so it is for assignments and loads. The machine of a replay has this test too, by the
// same definition.
#[tactic(auto, unfolding(crate::specs::AccessPlaces::register_first))]
fn register_first(operation: u8) -> bool
    ensures { result ≡ register_first operation }
{
    operation <= Instruction::ACQUIRE || operation == Instruction::ASSIGN_TWO
}

// An instruction with its fields by role and its formulas by position. A branch has neither here.
#[tactic(auto, unfolding(crate::specs::AccessPlaces::acting_of))]
fn read_acting(image: &Indexed, instruction: Instruction) -> Acting
    ensures { result ≡ acting_of image.now instruction }
{
    if instruction.operation == Instruction::BRANCH {
        return Acting {
            operation: instruction.operation,
            whole: instruction.operation,
            word: 0,
            register: 0,
            formula: image.bytes().len(),
            noted: 0,
            note: image.bytes().len(),
        };
    }
    let formula = formula_at(image, instruction.formula);
    let note = formula_at(image, instruction.second.formula);
    let (operation, word, register) = if register_first(instruction.operation) {
        (instruction.operation, instruction.b, instruction.a)
    } else {
        (
            first_operation(instruction.operation),
            instruction.a,
            instruction.b,
        )
    };
    Acting {
        operation,
        whole: instruction.operation,
        word,
        register,
        formula,
        noted: instruction.second.a,
        note,
    }
}

// The instruction of thread `t` at `point`, with its fields by role.
// Image and sizes stay apart: `Counted` would bring totals, which no instruction needs.
pub fn acting_of(image: &Indexed, sizes: Sizes, t: usize, point: usize) -> Acting
    ensures { result ≡ acting_of image.now (instruction_of sizes (bodies image.now) t point) }
{
    let instruction = instruction_of(image, sizes, t, point);
    read_acting(image, instruction)
}

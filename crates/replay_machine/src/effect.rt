// Instructions with their formulas worked out.
ghost use Rattle.std.specs.Prelude.{◌≡◌, ◌-◌};
ghost use Rattle.image_access.specs.AccessPlaces.{register_first};
ghost use Rattle.replay_machine.specs.Effect.{effect_of};

use image_header::instruction::Instruction;

// An instruction with values for its formulas. The word counts from 0, registers from 1. Fields that an operation does not use are ignored.
#[derive(Clone, Copy)]
pub struct Effect {
    pub operation: u8,
    pub word: u8,
    pub register: u8,
    pub value: u8,
    // The register of the auxiliary assignment (Change 6's note), or of the second assignment, and its value.
    pub noted: u8,
    pub note: u8,
    // The point that a branch goes to.
    pub target: u8,
}

// A number that counts from 1, counted from 0; 0 stays, which bounds the difference without a precondition.
pub fn before(number: u8) -> u8
    ensures { result ≡ number - 1 }
{
    number.saturating_sub(1)
}

// The operation has its register in field a: assignments and loads. Others have their word there.
#[tactic(auto, using(limits::proofs::BranchTests::tests), unfolding(image_access::specs::AccessPlaces::register_first))]
fn register_first(operation: u8) -> bool
    ensures { result ≡ register_first operation }
{
    operation <= Instruction::ACQUIRE || operation == Instruction::ASSIGN_TWO
}

// The effect of an instruction; `value` and `note` are the values of its formula and of its second half's.
#[tactic(auto, using(crate::proofs::EffectBranches::effect_of_branches, limits::proofs::BranchTests::tests))]
pub fn effect_of(instruction: Instruction, value: u8, note: u8) -> Effect
    ensures { result ≡ effect_of instruction value note }
{
    let h = instruction.second;
    if register_first(instruction.operation) {
        return Effect {
            operation: instruction.operation,
            word: before(instruction.b),
            register: instruction.a,
            value,
            noted: h.a,
            note,
            target: instruction.a,
        };
    }
    Effect {
        operation: instruction.operation,
        word: before(instruction.a),
        register: instruction.b,
        value,
        noted: h.a,
        note,
        target: instruction.a,
    }
}

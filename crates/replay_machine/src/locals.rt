// Registers and points after a step.
ghost use Rattle.std.specs.Prelude.{◌≡◌};
ghost use Rattle.replay_machine.specs.Locals.{with_register, with_both, registers_after, point_after};

use crate::effect::Effect;
use image_header::instruction::Instruction;
use replay_memory::view::next;

// The values of sixteen registers; register r is entry r - 1.
#[derive(Clone, Copy)]
pub struct Registers {
    pub at: [u8; 16],
}

// The registers with `value` for register `r`; a number that no register has sets none.
#[tactic(auto, using(limits::proofs::BranchTests::tests), unfolding(crate::specs::Locals::with_register))]
fn with_register(registers: Registers, r: u8, value: u8) -> Registers
    ensures { result ≡ with_register registers r value }
{
    if r == 0 || 16 < r {
        return registers;
    }
    let mut registers = registers;
    registers.at[usize::from(r - 1)] = value;
    registers
}

// The registers after two assignments in one step.
#[tactic(auto, using(crate::proofs::EffectBranches::both_made, limits::proofs::BranchTests::tests))]
fn with_both(registers: Registers, effect: Effect) -> Registers
    ensures { result ≡ with_both registers effect }
{
    let n = with_register(registers, effect.noted, effect.note);
    with_register(n, effect.register, effect.value)
}

// Operation numbers are associated constants (docs/DECISIONS.md, "Forms named for a place"), so this is a match on them.
// The registers after a step; `old` is the value of the write that it picks.
#[tactic(auto, using(limits::proofs::BranchTests::tests), unfolding(crate::specs::Locals::registers_after))]
pub fn registers_after(registers: Registers, old: u8, effect: Effect) -> Registers
    ensures { result ≡ registers_after registers old effect }
{
    match effect.operation {
        Instruction::ASSIGN => with_register(registers, effect.register, effect.value),
        Instruction::LOAD | Instruction::ACQUIRE | Instruction::EXCHANGE | Instruction::FETCH_ADD =>
            with_register(registers, effect.register, old),
        Instruction::PAIR_STORE | Instruction::PAIR_RELEASE | Instruction::PAIR_SWAP => {
            with_register(registers, effect.noted, effect.note)
        }
        Instruction::ASSIGN_TWO => with_both(registers, effect),
        _ => registers,
    }
}

// The point after a step: the next one, or the target of a branch whose test is true.
#[tactic(auto, using(limits::proofs::BranchTests::tests), unfolding(crate::specs::Locals::point_after))]
pub fn point_after(point: u8, effect: Effect) -> u8
    ensures { result ≡ point_after point effect }
{
    if effect.operation == Instruction::BRANCH && effect.value == 1 {
        effect.target
    } else {
        next(point)
    }
}

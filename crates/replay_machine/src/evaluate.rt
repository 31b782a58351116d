// The value of a formula at given registers. A test's value is 1 for true.
ghost use Rattle.std.specs.Prelude.{◌≡◌};
ghost use Rattle.limits.specs.Limits.{nesting};
ghost use Rattle.formula.specs.Tree.{parse_tree};
ghost use Rattle.replay_machine.specs.Evaluate.{worked_here, worked_t, worked_at};

use formula::code::Code;
use formula::node::node_at;
use limits::Limits;
use limits::read::nth_byte;
use tables_columns::combine::combine_parts;

// A formula's value, and the position after it.
#[derive(Clone, Copy)]
pub struct Worked {
    pub value: u8,
    pub end: usize,
}

// A node's value from the values of its parts. A register has the value given; a word and a flag have none and count as 0.
#[tactic(auto, using(limits::proofs::BranchTests::tests), unfolding(crate::specs::Evaluate::worked_here))]
fn work_here(range: u8, code: u8, operand: u8, registers: &[u8], first: u8, second: u8) -> u8
    ensures { result ≡ worked_here range registers.now code operand first second }
{
    if code == Code::REG {
        return nth_byte(registers, usize::from(operand)) as u8;
    }
    combine_parts(range, code, operand, first, second)
}

// The value of the formula at `at`, nested at most `left` deep, and the position after it.
#[tactic(auto, using(crate::proofs::EvaluateBranches::work_at_branches, limits::proofs::BranchTests::tests))]
pub fn work_at(image: &[u8], at: usize, left: usize, range: u8, registers: &[u8]) -> Worked
    ensures { result ≡ worked_at range registers.now (parse_tree image.now left at) }
{
    if left == 0 {
        return Worked { value: 0, end: at };
    }
    let node = node_at(image, at);
    if node.parts == 0 {
        let value = work_here(range, node.code, node.operand, registers, 0, 0);
        return Worked {
            value,
            end: node.next,
        };
    }
    let a = work_at(image, node.next, left - 1, range, registers);
    if node.parts == 1 {
        let value = work_here(range, node.code, node.operand, registers, a.value, 0);
        return Worked { value, end: a.end };
    }
    let b = work_at(image, a.end, left - 1, range, registers);
    let value = work_here(range, node.code, node.operand, registers, a.value, b.value);
    Worked { value, end: b.end }
}

// The value of the formula at `at`.
pub fn work(image: &[u8], at: usize, range: u8, registers: &[u8]) -> u8
    ensures { result ≡ worked_t range registers.now (parse_tree image.now nesting at).tree }
{
    work_at(image, at, Limits::NESTING, range, registers).value
}

// A node's value from the values of its parts. A test's value is 1 for true.
ghost use Rattle.std.specs.Prelude.{◌≡◌, ◌-◌};
ghost use Rattle.tables_columns.specs.Combine.{sum_of, combine};

use formula::code::Code;

// `range` minus `number`, at least 0: a summand below this keeps the sum with `number` below the range.
fn room_for(range: u8, number: u8) -> u8
    ensures { result ≡ range - number }
{
    range.saturating_sub(number)
}

// The sum modulo the range of two values below it. There is no division and all is in bytes, so that the compiler vectorises the loop.
#[tactic(auto, using(crate::proofs::CombineBranches::sum_of_branches, limits::proofs::BranchTests::tests))]
pub fn sum_of(range: u8, first: u8, second: u8) -> u8
    ensures { result ≡ sum_of range first second }
{
    let room = room_for(range, second);
    if first < room {
        first + second
    } else {
        first - room
    }
}

// A node's value from the values of its parts; 0 for a code that has no value by its parts.
#[tactic(auto, using(crate::proofs::CombineBranches::combine_parts_branches, limits::proofs::BranchTests::tests))]
pub fn combine_parts(range: u8, code: u8, operand: u8, first: u8, second: u8) -> u8
    ensures { result ≡ combine range code operand first second }
{
    match code {
        Code::CONST => operand,
        Code::SUM => sum_of(range, first, second),
        Code::EQUAL => u8::from(first == second),
        Code::LESS => u8::from(first < second),
        Code::NOT => u8::from(first != 1),
        Code::AND | Code::BOTH_A => if first == 1 { second } else { 0 },
        Code::OR | Code::EITHER_A => if first == 1 { 1 } else { second },
        Code::HOLDS => first,
        _ => 0,
    }
}

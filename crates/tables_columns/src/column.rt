// Columns combined row by row.
ghost use Rattle.std.specs.Prelude.{◌≡◌, ◌≤◌, length, take};
ghost use Rattle.tables_columns.specs.Column.{combined, deny_of, denied, seen_of, none_below, Zipped};

use crate::combine::combine_parts;
use formula::code::Code;

// Combines two lists index by index, in place of the first. The loop holds nothing but the one operation, so the compiler vectorises it.
pub fn zip_with<T: Copy, F: Fn(T, T) -> T>(n: usize, list: &mut [T], other: &[T], combine: F)
    requires in_bounds { (n ≤ length list.old) × (n ≤ length other.now) }
    requires callable { F.IsAlwaysCallable combine }
    ensures zipped { Zipped (F.post combine) n list.old other.now list.new }
    ensures len { length list.new ≡ length list.old }
{
    for i in 0..n {
        list[i] = combine(list[i], other[i]);
    }
}

// The code stands alone among the parameters, since naming it in a call is what makes a loop for it.
// The two columns are lent apart: one is written, and the other is read.

// A node's column from the columns of its parts, in place of the first, in one loop for all codes.
fn combine_by(range: u8, code: u8, operand: u8, n: usize, column: &mut [u8], other: &[u8])
    requires { (n ≤ length column.old) × (n ≤ length other.now) }
    ensures { take n column.new ≡ combined range code operand n column.old other.now }
{
    zip_with(
        n,
        column,
        other,
        |first, second| combine_parts(range, code, operand, first, second),
    );
}

// A node's column from the columns of its parts, in place of the first. Each code is named in a call of its own, so that the compiler
// makes a loop for it alone.
pub fn combine_columns(range: u8, code: u8, operand: u8, n: usize, column: &mut [u8], other: &[u8])
    requires { (n ≤ length column.old) × (n ≤ length other.now) }
    ensures { take n column.new ≡ combined range code operand n column.old other.now }
{
    match code {
        Code::SUM => combine_by(range, Code::SUM, operand, n, column, other),
        Code::EQUAL => combine_by(range, Code::EQUAL, operand, n, column, other),
        Code::LESS => combine_by(range, Code::LESS, operand, n, column, other),
        Code::NOT => combine_by(range, Code::NOT, operand, n, column, other),
        Code::AND => combine_by(range, Code::AND, operand, n, column, other),
        Code::OR => combine_by(range, Code::OR, operand, n, column, other),
        Code::BOTH_A => combine_by(range, Code::BOTH_A, operand, n, column, other),
        Code::EITHER_A => combine_by(range, Code::EITHER_A, operand, n, column, other),
        Code::HOLDS => combine_by(range, Code::HOLDS, operand, n, column, other),
        _ => combine_by(range, code, operand, n, column, other),
    }
}

// 1 if `first` is 1 and `second` is not, else 0.
#[tactic(auto, using(limits::proofs::BranchTests::tests), unfolding(crate::specs::Column::deny_of))]
fn deny(first: u8, second: u8) -> u8
    ensures { result ≡ deny_of first second }
{
    u8::from(first == 1 && second != 1)
}

// Sets each row of `column` to 1 if it is 1 and that of `other` is not, else to 0.
pub fn and_not(n: usize, column: &mut [u8], other: &[u8])
    requires { (n ≤ length column.old) × (n ≤ length other.now) }
    ensures { take n column.new ≡ denied n column.old other.now }
{
    zip_with(n, column, other, deny);
}

// 1 if `value` is 1, else `found`: over a column, 1 from the first 1 on.
#[tactic(auto, using(limits::proofs::BranchTests::tests), unfolding(crate::specs::Column::seen_of))]
fn seen(found: u8, value: u8) -> u8
    ensures { result ≡ seen_of found value }
{
    if value == 1 { 1 } else { found }
}

// Whether none of the first `n` rows is 1. The loop looks at all rows, because it is vectorised so and faster than one that stops.
#[tactic(auto, using(crate::proofs::ColumnBranches::none_below_branches, limits::proofs::BranchTests::tests))]
pub fn none_below(column: &[u8], n: usize) -> bool
    requires { n ≤ length column.now }
    ensures { result ≡ none_below column.now n }
{
    let mut found = 0;
    for i in 0..n {
        found = seen(found, column[i]);
    }
    found == 0
}

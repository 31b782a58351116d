// Renumbering: what is marked gets the numbers from 1 on, in its old order.
#![tactic(auto, using(crate::proofs::NumberingBranches::numbering_branches, limits::proofs::BranchTests::tests))]

ghost use Rattle.std.specs.Prelude.{◌≡◌, length, replicate};
ghost use Rattle.trim_spec.specs.Live.{new_numbers};
ghost use Rattle.trim_encode.specs.Renumbered.{renewed};

use crate::marks::is_marked;

// The marks of what stays, and the table of the new numbers that they give.
#[derive(Clone, Copy)]
pub struct Renumbering<'a> {
    pub live: &'a [bool],
    pub numbers: &'a [usize],
    ghost numbered: { numbers.now ≡ new_numbers live.now },
}

impl<'a> Renumbering<'a> {
    // The new number of `number`.
    pub fn new_number(&self, number: usize) -> usize
        ensures { result ≡ renewed self.now.numbers.now number }
    {
        new_number(self.numbers, number)
    }
}

// The new number of `number` by a table. A number past the table gets its last entry, so that no caller has to show that it is in the table.
pub fn new_number(numbers: &[usize], number: usize) -> usize
    ensures { result ≡ renewed numbers.now number }
{
    if number < numbers.len() {
        numbers[number]
    } else if numbers.len() == 0 {
        0
    } else {
        numbers[numbers.len() - 1]
    }
}

// Fills `table`, all zeros before, with the new number of each old one, in one pass with a running count.
pub fn fill_numbers(marks: &[bool], table: &mut [usize])
    requires { table.old ≡ replicate (length marks.now) 0 }
    ensures { table.new ≡ new_numbers marks.now }
{
    let mut n: usize = 0;
    for i in 0..marks.len() {
        table[i] = n;
        n += usize::from(is_marked(marks, i + 1));
    }
}

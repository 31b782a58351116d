// Marks by number: a flag for each number from 0 on.
ghost use Rattle.std.specs.Prelude.{◌≡◌, true, false, get_or, set};
ghost use Rattle.limits.specs.Numbers.{numbers};
ghost use Rattle.trim_spec.specs.Live.{marked_by};

use limits::read::number_at;

// Sets the mark of `number`; a number past the last mark is ignored.
#[tactic(auto, using(crate::proofs::MarkBranches::note_past))]
pub fn mark_number(marks: &mut [bool], number: usize)
    ensures { marks.new ≡ set marks.old number true }
{
    if number < marks.len() {
        marks[number] = true;
    }
}

// Sets the marks of the first `n` 16-bit numbers in `body`.
#[tactic(auto, using(crate::proofs::MarkBranches::mark_numbers_branches, limits::proofs::BranchTests::tests))]
pub fn mark_numbers(body: &[u8], n: usize, marks: &mut [bool])
    ensures { marks.new ≡ marked_by marks.old (numbers n body.now) }
{
    for i in 0..n {
        mark_number(marks, number_at(body, n, i));
    }
}

// Whether `number` is marked; a number past the last mark is not.
#[tactic(auto, using(crate::proofs::MarkBranches::noted_none))]
pub fn is_marked(marks: &[bool], number: usize) -> bool
    ensures { result ≡ get_or marks.now number false }
{
    number < marks.len() && marks[number]
}

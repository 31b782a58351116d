// Marks of justified lines: one for each line that an image may have.
ghost use Rattle.std.specs.Prelude.{◌≡◌};
ghost use Rattle.rules_justified.specs.Marks.{as_marks, is_marked, with_mark};

use limits::Limits;

// The mark of line n is entry n - 1.
#[derive(Clone, Copy)]
pub struct Marks {
    pub on: [bool; Limits::LINES],
}

// Whether line `number` has a mark; a number that no line can have has none.
#[tactic(auto, using(crate::proofs::MarkBranches::marks_branches))]
pub fn is_marked(marks: &[bool], number: usize) -> bool
    ensures { result ≡ is_marked (as_marks marks.now) number }
{
    number != 0 && number <= marks.len() && marks[number - 1]
}

// Sets the mark of line `number`; for a number that no line can have, nothing changes.
#[tactic(auto, using(crate::proofs::MarkBranches::marks_branches))]
pub fn set_mark(marks: &mut [bool], number: usize, mark: bool)
    ensures { marks.new ≡ (with_mark (as_marks marks.old) number mark).on }
{
    if number != 0 && number <= marks.len() {
        marks[number - 1] = mark;
    }
}

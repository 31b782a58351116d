// Implications at each row, by the values of their sides.
ghost use Rattle.std.specs.Prelude.{◌≡◌, ◌≤◌, get_or, length, take};
ghost use Rattle.tables_columns.specs.Gather.{view};
ghost use Rattle.tables_rows.specs.Entailment.{pair_in, pair_at, imp_of, imp_fails, gather_imp, gather_all};

use tables_columns::column::and_not;
use tables_columns::gather::gather_at;
use tables_columns::slot::{Slot, Slots};
use tables_digits::rows::Rows;
use tables_digits::value_column::whole_column;

// The sizes of a task.
#[derive(Drop)]
pub struct Sizes {}

impl Sizes {
    // A line and its four premises.
    pub const IMPLICATIONS: usize = 5;
}

// An implication between two formulas, by their positions.
#[derive(Clone, Copy)]
pub struct Implication {
    pub left: usize,
    pub right: usize,
}

impl Implication {
    // What is read past the last one.
    pub const NONE: Implication = Implication { left: 0, right: 0 };
}

// Implications: a list of them, or the positions of the left sides and those of the right sides, in two lists of any lengths.
#[derive(Clone, Copy)]
pub enum Pairs<'a> {
    Joined(&'a [Implication]),
    Apart(&'a [usize], &'a [usize]),
}

// The number of premises after the line, and the greatest nesting of the left and the right sides.
#[derive(Clone, Copy)]
pub struct Task {
    pub premises: usize,
    pub left: usize,
    pub right: usize,
}

// The implication at index `i` of a list; with positions 0 past the end.
fn pair_in(pairs: &[Implication], i: usize) -> Implication
    ensures { result ≡ pair_in pairs.now i }
{
    if i < pairs.len() {
        pairs[i]
    } else {
        Implication::NONE
    }
}

// The position at index `i`; 0 past the end.
fn position_in(positions: &[usize], i: usize) -> usize
    ensures { result ≡ get_or positions.now i 0 }
{
    if i < positions.len() { positions[i] } else { 0 }
}

// The implication at index `i`; a position that is not there is 0.
#[tactic(auto, using(crate::proofs::EntailmentBranches::pair_at_branches))]
pub fn pair_at(pairs: &Pairs, i: usize) -> Implication
    ensures { result ≡ pair_at pairs.now i }
{
    match *pairs {
        Pairs::Joined(list) => pair_in(list, i),
        Pairs::Apart(lefts, rights) => Implication {
            left: position_in(lefts, i),
            right: position_in(rights, i),
        },
    }
}

// The image is apart from `pairs` and `task`, since rows have one of their own; `task.premises` is 0 where rows are tried, as `hold_from` asks.

// Writes the rows at which implication `i` fails: 1 there, 0 elsewhere. `room` is scratch space for another column.
#[tactic(auto, using(crate::proofs::EntailmentBranches::imp_fails_branches, limits::proofs::BranchTests::tests))]
pub fn imp_fails(pairs: &Pairs, task: Task, i: usize, rows: &Rows, out: &mut [u8], room: &mut [u8])
    requires { (rows.now.count ≤ length out.old) × (rows.now.count ≤ length room.old) }
    ensures { take rows.now.count out.new ≡ imp_fails rows.now.image.now rows.now.reading rows.now.slots.now rows.now.lasts.now
        rows.now.count (imp_of rows.now.image.now (pair_at pairs.now) task i) }
{
    let pair = pair_at(pairs, i);
    whole_column(rows, pair.left, task.left, out);
    whole_column(rows, pair.right, task.right, room);
    and_not(rows.count, out, room);
}

// Adds the leaves of implication `i`; returns the number of leaves then.
pub fn gather_imp(
    image: &[u8],
    pairs: &Pairs,
    task: Task,
    i: usize,
    set: u32,
    n: usize,
    slots: &mut [Slot; Slots::COUNT],
) -> usize
    ensures slots_after { view image.now result slots.new ≡ gather_imp set
        (imp_of image.now (pair_at pairs.now) task i) (view image.now n slots.old) }
    ensures slots_len { length slots.new ≡ 12 }
{
    let pair = pair_at(pairs, i);
    let m = gather_at(image, pair.right, task.right, set, n, slots);
    gather_at(image, pair.left, task.left, set, m, slots)
}

// Gathers the leaves of a line without premises; returns their number.
#[tactic(auto, using(crate::proofs::EntailmentBranches::all_alone, limits::proofs::BranchTests::tests))]
pub fn gather_line(
    image: &[u8],
    pairs: &Pairs,
    task: Task,
    set: u32,
    slots: &mut [Slot; Slots::COUNT],
) -> usize
    requires { task.premises ≡ 0 }
    ensures { view image.now result slots.new
        ≡ gather_all image.now (pair_at pairs.now) task set }
{
    gather_imp(image, pairs, task, 0, set, 0, slots)
}

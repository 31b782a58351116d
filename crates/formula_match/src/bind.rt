// The bindings of a template's holes, and how a hole takes a formula or a number.
#![tactic(auto, using(crate::proofs::MatchBranches::bind_ways))]

ghost use Rattle.std.specs.Prelude.{◌≡◌, ◌<◌, false};
ghost use Rattle.formula_match.specs.MatchPlaces.{is_there, hole_at, kept, operand_of};

use formula_compare::same::same_at;
use limits::Limits;

// The codes and operands of a template that are holes.
#[derive(Drop)]
pub struct Hole {}

impl Hole {
    // Codes from this on are holes for formulas.
    pub const FORMULAS: u8 = 64;
    // An operand below this is a hole for a number; any other is a fixed number plus this.
    pub const NUMBERS: u8 = 8;
    // The number of holes for formulas, and of those for numbers.
    pub const COUNT: u8 = 5;
}

// The bindings of the holes: formulas by position with the nesting left there (0: not bound yet), and numbers plus 1 (0: not bound yet).
// It is copied at each node, so it is kept small: with arrays of Option of a struct the matcher takes 59,867 instructions for a formula
// of 248 bytes, and 33,230 so.
#[derive(Clone, Copy)]
pub struct Bind {
    pub at: [usize; 5],
    pub left: [u8; 5],
    pub num: [u16; 5],
}

impl Bind {
    // The nesting left at a whole formula.
    pub const WHOLE: u8 = Limits::NESTING as u8;
}

// What is left to match behind two roots: nothing, one part or two, from a position of the formula on; or a hole has taken the formula,
// whose end is not known yet.
#[derive(Clone, Copy)]
pub enum Rest {
    Nothing(usize),
    One(usize),
    Two(usize),
    Taken,
}

// The roots of a template and a formula that match: the position past the template's, what is left, and the bindings.
#[derive(Clone, Copy)]
pub struct Root {
    pub tpl: usize,
    pub rest: Rest,
    pub bind: Bind,
}

// Whether a hole is bound to the formula at this very position with the same nesting left: then nothing has to be compared.
#[tactic(auto, using(limits::proofs::BranchTests::tests), unfolding(crate::specs::MatchPlaces::is_there))]
fn is_there(place: usize, held: u8, at: usize, left: u8) -> bool
    ensures { result ≡ is_there place held at left }
{
    place == at && held == left
}

// `at` and `left` change apart from each other at each step of the recursion, so a struct of them would be taken apart in every call.
// Matches hole `j` with the formula at `at`: binds the hole if it is free, else compares. `tpl` is the position past the hole.
pub fn match_hole(
    image: &[u8],
    tpl: usize,
    j: usize,
    at: usize,
    left: u8,
    bind: &Bind,
) -> Option<Root>
    requires { j < 5 }
    ensures { result ≡ hole_at image.now tpl j at left bind.now }
{
    let held = bind.left[j];
    if held == 0 {
        let mut bind = *bind;
        bind.at[j] = at;
        bind.left[j] = left;
        return Some(Root {
            tpl,
            rest: Rest::Taken,
            bind,
        });
    }
    let place = bind.at[j];
    if is_there(place, held, at, left) {
        return Some(Root {
            tpl,
            rest: Rest::Taken,
            bind: *bind,
        });
    }
    let (_, end) = same_at(image, place, usize::from(held), at, usize::from(left))?;
    Some(Root {
        tpl,
        rest: Rest::Nothing(end),
        bind: *bind,
    })
}

// Whether an operand of a template, `want`, fits one of a formula, `has`; a hole for a number that is free is bound to it.
#[tactic(auto, using(limits::proofs::BranchTests::tests), unfolding(crate::specs::MatchPlaces::operand_of))]
pub fn match_operand(want: u8, has: u8, bind: &mut Bind) -> bool
    ensures fits { kept result bind.new ≡ operand_of want has bind.old }
    ensures stays { result ≡ false → bind.new ≡ bind.old }
{
    if Hole::NUMBERS <= want {
        return want - Hole::NUMBERS == has;
    }
    if Hole::COUNT <= want {
        return false;
    }
    let j = usize::from(want);
    let held = bind.num[j];
    let number = u16::from(has) + 1;
    if held == 0 {
        bind.num[j] = number;
        return true;
    }
    held == number
}

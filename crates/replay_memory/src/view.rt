// Views: for each of eight words a position in its row. Words count from 0 here; a number past the last one is taken modulo eight.
ghost use Rattle.std.specs.Prelude.{◌≡◌};
ghost use Rattle.replay_memory.specs.View.{start_view, next, up, position_in, with_position, up_view, joined};

// The position of the named write, for each word.
#[derive(Clone, Copy)]
pub struct View {
    pub at: [u8; 8],
}

// The view that names the first write of each word.
pub fn start_view() -> View
    ensures { result ≡ start_view }
{
    View { at: [0; 8] }
}

// The number after `position`; 255 stays, which bounds the sum without a precondition (neither positions nor points get that far).
#[tactic(auto, using(limits::proofs::BranchTests::tests), unfolding(crate::specs::View::next))]
pub fn next(position: u8) -> u8
    ensures { result ≡ next position }
{
    if position < 255 {
        position + 1
    } else {
        position
    }
}

// Where the write at `position` is after an insertion behind position `behind`.
#[tactic(auto, using(limits::proofs::BranchTests::tests), unfolding(crate::specs::View::up))]
pub fn up(behind: u8, position: u8) -> u8
    ensures { result ≡ up behind position }
{
    if position <= behind {
        position
    } else {
        next(position)
    }
}

// The position that the view has for word `x`.
#[tactic(auto, using(limits::proofs::BranchTests::tests), unfolding(crate::specs::View::position_in))]
pub fn position_in(view: View, x: u8) -> u8
    ensures { result ≡ position_in view x }
{
    view.at[usize::from(x % 8)]
}

// Word and position are two numbers of a step that callees take apart again, so a struct of them would be made and unmade in each call.
// The view with `position` for word `x`.
#[tactic(auto, using(limits::proofs::BranchTests::tests), unfolding(crate::specs::View::with_position))]
pub fn with_position(view: View, x: u8, position: u8) -> View
    ensures { result ≡ with_position view x position }
{
    let mut view = view;
    view.at[usize::from(x % 8)] = position;
    view
}

// The view after an insertion behind `position` of word `x`: it keeps its write.
#[tactic(auto, using(crate::proofs::ViewBranches::view_up, limits::proofs::BranchTests::tests))]
pub fn up_view(view: View, x: u8, position: u8) -> View
    ensures { result ≡ up_view x position view }
{
    with_position(view, x, up(position, position_in(view, x)))
}

// The join of two views: word by word the later.
#[tactic(auto, using(crate::proofs::ViewBranches::joins))]
pub fn join(view: View, other: View) -> View
    ensures { result ≡ joined view other }
{
    let mut joined = view;
    for i in 0..8 {
        joined.at[i] = view.at[i].max(other.at[i]);
    }
    joined
}

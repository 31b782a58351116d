// The kinds of records, and their order.
ghost use Rattle.std.specs.Prelude.{◌≡◌, ◌≤◌};
ghost use Rattle.image_frames.specs.Kinds.{order};

use limits::Limits;

// The number of each kind, its place in the order in which an image has its records, and how many records there may be.
// Kinds are numbers and no enum: the walk subtracts their places and counts the records by them.
#[derive(Drop)]
pub struct Kind;

impl Kind {
    pub const HEADER: usize = 1;

    pub const FORMULA: usize = 2;

    pub const THREAD: usize = 3;

    pub const OUTLINE: usize = 4;

    pub const LINE: usize = 5;

    pub const OBLIGATIONS: usize = 6;

    // Claim records follow the obligations record; kind 7 is the verdict's, so no record of an image has it.
    pub const CLAIM: usize = 8;

    // The place of claims in the order, which is the last one. The place of any other kind is its number.
    pub const LAST: usize = 7;

    // The greatest number of records at each place in the order. Place 0 is no kind's.
    pub const MOST: [u16; 8] = [
        0,
        1,
        Limits::FORMULAS as u16,
        Limits::THREADS as u16,
        1,
        Limits::LINES as u16,
        1,
        Limits::CLAIMS as u16,
    ];
}

// The place of a kind in the order: its number up to 6, LAST for a claim, LAST + 1 for any other. No record of kind 0 is admitted: MOST
// is 0.
#[tactic(auto, using(limits::proofs::BranchTests::tests), unfolding(crate::specs::Kinds::order))]
pub fn order_of(kind: usize) -> usize
    ensures { (result ≡ order kind) × (result ≤ 8) }
{
    if kind == Kind::CLAIM {
        Kind::LAST
    } else if Kind::OBLIGATIONS < kind {
        Kind::LAST + 1
    } else {
        kind
    }
}

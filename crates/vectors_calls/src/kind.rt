// Which calls a file holds, by the front of its name.
ghost use Rattle.std.specs.Prelude.{◌≡◌};
ghost use Rattle.vectors_calls.specs.Kind.{kind_of, tail_of};

use vectors::bill_answer::Stored as BillStored;
use vectors::trim_answer::Stored as TrimStored;

// The calls of a file.
#[derive(Clone, Copy, PartialEq, Eq)]
pub enum Kind {
    Verdicts,
    Trims,
    Bills,
    Replays,
    Handovers,
    Across,
}

// The length of a tail, for each kind of call.
#[derive(Drop)]
pub struct Tail;

impl Tail {
    // Nine numbers of 16 bits.
    pub const VERDICT: usize = 18;

    // The length of the image, 32 bits; then how many bytes of the buffer are passed, and the code.
    pub const TRIM: usize = 4 + TrimStored::BYTES;

    // The stored bill.
    pub const BILL: usize = BillStored::BYTES;

    // The lengths of image, trace and given registers, the bytes of table and the numbers passed, 32 bits each; the code, 16 bits; the
    // answer, 21 numbers of 32 bits.
    pub const REPLAY: usize = 106;

    // The lengths of both images, 32 bits each; the code, 16 bits.
    pub const HANDOVER: usize = 10;

    // The lengths of six parts, the bytes of table and the numbers passed, 32 bits each; the code, 16 bits; the answer, 21 numbers of 32
    // bits.
    pub const ACROSS: usize = 118;

    // The longest tail.
    pub const MOST: usize = Self::ACROSS;
}

// The calls of a file with this name.
#[tactic(auto, unfolding(crate::specs::Kind::kind_of))]
pub fn kind_of(name: &[u8]) -> Kind
    ensures { result ≡ kind_of name.now }
{
    if name.starts_with(b"trim") {
        return Kind::Trims;
    }
    if name.starts_with(b"bills") {
        return Kind::Bills;
    }
    if name.starts_with(b"replay") {
        return Kind::Replays;
    }
    if name.starts_with(b"handover") {
        return Kind::Handovers;
    }
    if name.starts_with(b"across") {
        return Kind::Across;
    }
    Kind::Verdicts
}

// The length of each case's tail.
#[tactic(auto, unfolding(crate::specs::Kind::tail_of))]
pub fn tail_of(kind: Kind) -> usize
    ensures { result ≡ tail_of kind }
{
    match kind {
        Kind::Verdicts => Tail::VERDICT,
        Kind::Trims => Tail::TRIM,
        Kind::Bills => Tail::BILL,
        Kind::Replays => Tail::REPLAY,
        Kind::Handovers => Tail::HANDOVER,
        Kind::Across => Tail::ACROSS,
    }
}

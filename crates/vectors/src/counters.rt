// Answers counted by their kind, and those that differ from the stored ones.
ghost use Rattle.std.specs.Prelude.{◌≡◌};
ghost use Rattle.vectors.specs.Counters.{more, no_case, with_kind, with_difference, with_case};

// What is counted over the cases of a file.
#[derive(Clone, Copy)]
pub struct Counters {
    pub cases: u64,
    // How many answers there are of each kind.
    pub kinds: [u64; Kind::LIMIT],
    pub differ: u64,
    // The number of the first case that differs, from 1.
    pub first: Option<u64>,
}

// The kind of an answer is a number, such as its code.
#[derive(Drop)]
pub struct Kind;

impl Kind {
    // A kind that is as large or larger is not counted.
    pub const LIMIT: usize = 64;
}

// How many cases are judged.
#[derive(Drop)]
pub struct Most;

impl Most {
    // No more than this: a proved loop has to end, and nothing says that a file does.
    pub const CASES: u64 = 100000;
}

// One more than `n`. No file has enough cases for this to wrap; a plain sum would need a proof of that.
pub fn more_than(n: u64) -> u64
    ensures { result ≡ more n }
{
    n.wrapping_add(1)
}

// The counters before the first case.
#[tactic(auto, using(limits::proofs::BranchTests::tests), unfolding(crate::specs::Counters::no_case))]
pub fn no_case() -> Counters
    ensures { result ≡ no_case }
{
    Counters {
        cases: 0,
        kinds: [0; Kind::LIMIT],
        differ: 0,
        first: None,
    }
}

// The counters with one case more, whose answer is of this kind.
#[tactic(auto, using(crate::proofs::CounterBranches::counters_branches, limits::proofs::BranchTests::tests))]
fn with_kind(counters: Counters, kind: usize) -> Counters
    ensures { result ≡ with_kind counters kind }
{
    let mut next = counters;
    next.cases = more_than(counters.cases);
    if Kind::LIMIT <= kind {
        return next;
    }
    next.kinds[kind] = more_than(counters.kinds[kind]);
    next
}

// The counters, if the case counted last differs.
#[tactic(auto, using(crate::proofs::CounterBranches::counters_branches, limits::proofs::BranchTests::tests))]
fn with_difference(counters: Counters) -> Counters
    ensures { result ≡ with_difference counters }
{
    let mut next = counters;
    next.differ = more_than(counters.differ);
    if counters.differ != 0 {
        return next;
    }
    next.first = Some(counters.cases);
    next
}

// The counters with one case more: the kind of its answer, and whether that is the stored answer.
#[tactic(auto, using(crate::proofs::CounterBranches::counters_branches, limits::proofs::BranchTests::tests))]
pub fn with_case(counters: Counters, kind: usize, same: bool) -> Counters
    ensures { result ≡ with_case counters kind same }
{
    let counted = with_kind(counters, kind);
    if same {
        return counted;
    }
    with_difference(counted)
}

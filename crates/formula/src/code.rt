// Formula codes, and what a code alone determines: where it fits, its operand, its parts. A set of codes is a number with a bit for each.
#![tactic(auto, using(crate::proofs::CodeSets::code_ways))]

ghost use Rattle.std.specs.Prelude.{◌≡◌};
ghost use Rattle.formula.specs.Codes.{member, set_at, fits_at, has_operand, part_count, part_place};

// The code of each formula: the first byte of its node. The codes are bytes of the image and bits of sets, so they are no enum.
#[derive(Drop)]
pub struct Code {}

impl Code {
    // A code divided by this is its sort.
    pub const PER_SORT: u8 = 8;

    // Values.
    pub const CONST: u8 = 0;

    pub const REG: u8 = 1;

    pub const WORD: u8 = 2;

    pub const SUM: u8 = 3;

    // Tests.
    pub const FALSE: u8 = 8;

    pub const EQUAL: u8 = 9;

    pub const LESS: u8 = 10;

    pub const NOT: u8 = 11;

    pub const AND: u8 = 12;

    pub const OR: u8 = 13;

    pub const UNSYNC: u8 = 14;

    pub const COV: u8 = 15;

    // Intervals.
    pub const BOX: u8 = 16;

    pub const ONE: u8 = 17;

    pub const CHOP: u8 = 18;

    pub const BOTH: u8 = 19;

    pub const EITHER: u8 = 20;

    // Assertions.
    pub const SEES: u8 = 24;

    pub const BOTH_A: u8 = 25;

    pub const EITHER_A: u8 = 26;

    pub const START: u8 = 27;

    pub const HOLDS: u8 = 28;
}

// What may be used at a place: a formula of a sort, or one over registers alone, as under `holds`.
// A body's place is its first code divided by 8, whatever that byte is, so places are numbers.
#[derive(Drop)]
pub struct Place {}

impl Place {
    pub const VALUE: u8 = 0;

    pub const TEST: u8 = 1;

    pub const INTERVAL: u8 = 2;

    pub const ASSERTION: u8 = 3;

    pub const REG_VALUE: u8 = 4;

    pub const REG_TEST: u8 = 5;
}

// Sets of codes.
#[derive(Drop)]
pub struct Codes {}

impl Codes {
    pub const REG_VALUES: u32 = (1 << Code::CONST) + (1 << Code::REG) + (1 << Code::SUM);

    pub const VALUES: u32 = Self::REG_VALUES + (1 << Code::WORD);

    pub const REG_TESTS: u32 = (1 << Code::FALSE)
        + (1 << Code::EQUAL)
        + (1 << Code::LESS)
        + (1 << Code::NOT)
        + (1 << Code::AND)
        + (1 << Code::OR);

    pub const TESTS: u32 = Self::REG_TESTS + (1 << Code::UNSYNC) + (1 << Code::COV);

    pub const INTERVALS: u32 = (1 << Code::BOX)
        + (1 << Code::ONE)
        + (1 << Code::CHOP)
        + (1 << Code::BOTH)
        + (1 << Code::EITHER);

    pub const ASSERTIONS: u32 = (1 << Code::SEES)
        + (1 << Code::BOTH_A)
        + (1 << Code::EITHER_A)
        + (1 << Code::START)
        + (1 << Code::HOLDS);

    // The codes that an operand byte follows.
    pub const OPERAND: u32 = (1 << Code::CONST)
        + (1 << Code::REG)
        + (1 << Code::WORD)
        + (1 << Code::UNSYNC)
        + (1 << Code::COV)
        + (1 << Code::ONE)
        + (1 << Code::SEES);

    // The codes with one sub-formula.
    pub const ONE_PART: u32 = (1 << Code::NOT)
        + (1 << Code::BOX)
        + (1 << Code::SEES)
        + (1 << Code::HOLDS);

    // The codes with two sub-formulas.
    pub const TWO_PARTS: u32 = (1 << Code::SUM)
        + (1 << Code::EQUAL)
        + (1 << Code::LESS)
        + (1 << Code::AND)
        + (1 << Code::OR)
        + (1 << Code::CHOP)
        + (1 << Code::BOTH)
        + (1 << Code::EITHER)
        + (1 << Code::BOTH_A)
        + (1 << Code::EITHER_A);

    // The codes whose parts are of the sort below their own.
    pub const LOWER_PARTS: u32 = (1 << Code::EQUAL)
        + (1 << Code::LESS)
        + (1 << Code::BOX)
        + (1 << Code::SEES);
}

// Whether `code` is in the set. No set has a code of 32 or more.
#[tactic(auto, using(limits::proofs::BranchTests::tests), unfolding(crate::specs::Codes::member))]
pub fn contains(set: u32, code: u8) -> bool
    ensures { result ≡ member set code }
{
    if 32 <= code {
        return false;
    }
    (set >> code) % 2 == 1
}

// Whether an operand byte follows the code.
pub fn has_operand(code: u8) -> bool
    ensures { result ≡ has_operand code }
{
    contains(Codes::OPERAND, code)
}

// The number of parts, that is sub-formulas, of a node with this code.
pub fn parts(code: u8) -> u8
    ensures { result ≡ part_count code }
{
    if contains(Codes::TWO_PARTS, code) {
        return 2;
    }
    if contains(Codes::ONE_PART, code) {
        return 1;
    }
    0
}

// The set of codes that fit at the place.
pub fn codes_at(place: u8) -> u32
    ensures { result ≡ set_at place }
{
    match place {
        Place::VALUE => Codes::VALUES,
        Place::TEST => Codes::TESTS,
        Place::INTERVAL => Codes::INTERVALS,
        Place::ASSERTION => Codes::ASSERTIONS,
        Place::REG_VALUE => Codes::REG_VALUES,
        Place::REG_TEST => Codes::REG_TESTS,
        _ => 0,
    }
}

// Whether the code fits at the place.
pub fn fits(code: u8, place: u8) -> bool
    ensures { result ≡ fits_at code place }
{
    contains(codes_at(place), code)
}

// The place of a node's parts: below a place over registers alone it is over registers alone too. Place 0 has no code in LOWER_PARTS; the
// test for it keeps the subtraction defined.
pub fn part_place(code: u8, place: u8) -> u8
    ensures { result ≡ part_place code place }
{
    if code == Code::HOLDS {
        return Place::REG_TEST;
    }
    if contains(Codes::LOWER_PARTS, code) {
        if place == 0 {
            return 0;
        }
        return place - 1;
    }
    place
}

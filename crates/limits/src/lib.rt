// The limits of an image, total reads of its numbers, and range tests on them.
#![tactic(auto)]

pub mod range;
pub mod read;

// The bounds of an image's counts and sizes, and of the rows and leaves that a rule may have.
#[derive(Drop)]
pub struct Limits;

impl Limits {
    pub const FEWEST_VALUES: usize = 2;

    pub const MOST_VALUES: usize = 16;

    pub const THREADS: usize = 4;

    pub const WORDS: usize = 8;

    pub const REGISTERS: usize = 16;

    pub const POINTS: usize = 16;

    pub const FORMULAS: usize = 500;

    pub const FORMULA_BYTES: usize = 255;

    pub const NESTING: usize = 16;

    pub const LINES: usize = 4000;

    pub const PREMISES: usize = 4;

    pub const CLAIMS: usize = 16;

    pub const ROWS: usize = 4096;

    pub const LEAVES: usize = 10;

    pub const IMAGE_BYTES: usize = 262144;

    // The program `verdict` refuses longer images; the library takes IMAGE_BYTES.
    pub const PROGRAM_BYTES: usize = 65535;

    // One header, one outline and one obligations record, and the greatest counts of the kinds that repeat.
    pub const RECORDS: usize = 3
        + Limits::FORMULAS
        + Limits::THREADS
        + Limits::LINES
        + Limits::CLAIMS;
}

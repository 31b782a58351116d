// The machine words of a truth table. Bit i of word w is row 64 * w + i.
ghost use Rattle.std.specs.Prelude.{◌≡◌, ◌^◌, ◌≤◌, ◌<◌, get_or};
ghost use Rattle.tables_bits.specs.Bits.{patterns, word_of, words_of, deny_word, deny_words, leaf_word, leaf_words, mask_of, none_set};
ghost use Rattle.tables_columns.specs.Column.{constant};

use formula::code::Code;
use tables_columns::column::zip_with;

// The size of a truth table, in words and rows.
#[derive(Drop)]
pub struct Words {}

impl Words {
    // Words for 1,024 rows, which ten leaves have.
    pub const COUNT: usize = 16;

    // The rows of one word.
    pub const ROWS: usize = 64;

    // A word in which every row is set.
    pub const ALL: u64 = 0xFFFF_FFFF_FFFF_FFFF;
}

// A node's word from the words of its parts: one operation for 64 rows.
#[tactic(auto, using(crate::proofs::BitBranches::combine_word_branches, limits::proofs::BranchTests::tests))]
pub fn combine_word(code: u8, operand: u8, first: u64, second: u64) -> u64
    ensures { result ≡ word_of code operand first second }
{
    match code {
        Code::CONST => if operand == 1 { Words::ALL } else { 0 },
        Code::NOT => first ^ Words::ALL,
        Code::AND | Code::BOTH_A => first & second,
        Code::OR | Code::EITHER_A => first | second,
        Code::HOLDS => first,
        _ => 0,
    }
}

// A node's table from the tables of its parts, in place of the first, in one loop for all codes.
fn combine_by(code: u8, operand: u8, bits: &mut [u64; Words::COUNT], other: &[u64; Words::COUNT])
    ensures { bits.new ≡ words_of code operand 16 bits.old other.now }
{
    zip_with(
        Words::COUNT,
        bits,
        other,
        |first, second| combine_word(code, operand, first, second),
    );
}

// A node's table from the tables of its parts, in place of the first. Each code is named in a call of its own, so that the compiler makes
// a loop for it alone.
pub fn combine_words(
    code: u8,
    operand: u8,
    bits: &mut [u64; Words::COUNT],
    other: &[u64; Words::COUNT],
)
    ensures { bits.new ≡ words_of code operand 16 bits.old other.now }
{
    match code {
        Code::NOT => combine_by(Code::NOT, operand, bits, other),
        Code::AND => combine_by(Code::AND, operand, bits, other),
        Code::OR => combine_by(Code::OR, operand, bits, other),
        Code::BOTH_A => combine_by(Code::BOTH_A, operand, bits, other),
        Code::EITHER_A => combine_by(Code::EITHER_A, operand, bits, other),
        _ => combine_by(code, operand, bits, other),
    }
}

// The rows that are set in `first` and not in `second`.
#[tactic(auto, using(limits::proofs::BranchTests::tests), unfolding(crate::specs::Bits::deny_word))]
fn deny_word(first: u64, second: u64) -> u64
    ensures { result ≡ deny_word first second }
{
    first & (second ^ Words::ALL)
}

// Keeps the rows of `bits` that are not set in `other`.
pub fn deny_words(bits: &mut [u64; Words::COUNT], other: &[u64; Words::COUNT])
    ensures { bits.new ≡ deny_words 16 bits.old other.now }
{
    zip_with(Words::COUNT, bits, other, deny_word);
}

// Writes the same word to the whole table.
#[tactic(auto, using(tables_columns::proofs::ColumnBranches::constant_replicate))]
pub fn fill_words(word: u64, out: &mut [u64; Words::COUNT])
    ensures { out.new ≡ constant word 16 }
{
    *out = [word; Words::COUNT];
}

// The digit of leaf `j`, one of the first six, at each of the 64 rows of a word; it is the same in every word.
fn first_word(j: usize) -> u64
    requires { j < 6 }
    ensures { result ≡ get_or patterns j 0 }
{
    match j {
        0 => 0xAAAA_AAAA_AAAA_AAAA,
        1 => 0xCCCC_CCCC_CCCC_CCCC,
        2 => 0xF0F0_F0F0_F0F0_F0F0,
        3 => 0xFF00_FF00_FF00_FF00,
        4 => 0xFFFF_0000_FFFF_0000,
        _ => 0xFFFF_FFFF_0000_0000,
    }
}

// The digit of leaf `j` at each of the 64 rows of a word. The first six leaves take all their values within a word, the others from word
// to word.
#[tactic(auto, using(crate::proofs::BitBranches::leaf_word_branches, limits::proofs::BranchTests::tests))]
fn leaf_word(j: usize, word: usize) -> u64
    requires { j < 64 }
    ensures { result ≡ leaf_word j word }
{
    if j < 6 {
        return first_word(j);
    }
    if (word >> (j - 6)) & 1 == 1 {
        return Words::ALL;
    }
    0
}

// Writes the table of leaf `j`.
pub fn leaf_words(j: usize, out: &mut [u64; Words::COUNT])
    requires { j < 64 }
    ensures { out.new ≡ leaf_words j 16 }
{
    for w in 0..Words::COUNT {
        out[w] = leaf_word(j, w);
    }
}

// The number of rows that `n` leaves have.
#[tactic(auto, using(crate::proofs::BitBranches::rows_of_branches, limits::proofs::BranchTests::tests))]
pub fn rows_of(n: usize) -> usize
    requires { n ≤ 10 }
    ensures { (result ≡ 2 ^ n) × (result ≤ 1024) }
{
    1 << n
}

// The rows of a word that are among the first `n` rows of the table.
#[tactic(auto, using(crate::proofs::BitBranches::mask_of_branches, limits::proofs::BranchTests::tests))]
pub fn mask_of(n: usize, word: usize) -> u64
    requires { (word < 16) × (n ≤ 1024) }
    ensures { result ≡ mask_of n word }
{
    let first = Words::ROWS * word;
    if first + Words::ROWS <= n {
        return Words::ALL;
    }
    if n <= first {
        return 0;
    }
    (1 << (n - first)) - 1
}

// Whether none of the first `n` rows is set.
#[tactic(auto, using(crate::proofs::BitBranches::none_set_branches))]
pub fn none_set(bits: &[u64; Words::COUNT], n: usize) -> bool
    requires { n ≤ 1024 }
    ensures { result ≡ none_set bits.now n 16 }
{
    for w in 0..Words::COUNT {
        if bits[w] & mask_of(n, w) != 0 {
            return false;
        }
    }
    true
}

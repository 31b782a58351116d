// The reader of formulas. It returns the first fault from the left.
#![tactic(auto, using(crate::proofs::ReaderBranches::reader_ways))]

ghost use Rattle.std.specs.Prelude.{◌≡◌};
ghost use Rattle.formula.specs.Reader.{number_of, fault_named, in_range, operand_answer, head_answer};
ghost use Rattle.formula.specs.Reader.{read_answer, reading_from, reading_of};

use crate::code::{Code, fits, has_operand, part_place, parts};
use crate::cursor::Cursor;
use limits::Limits;

// The numbers of threads, words, registers and values, which bound the operands of a formula.
#[derive(Clone, Copy)]
pub struct Counts {
    pub threads: u8,
    pub words: u8,
    pub registers: u8,
    pub values: u8,
}

// The faults of a formula.
#[derive(Clone, Copy, PartialEq, Eq)]
pub enum Fault {
    // An operand is outside its range.
    Range,
    // A code is unknown or unfit at its place, the nesting is too deep, or bytes are missing or left over.
    Malformed,
}

impl From<Fault> for usize {
    ghost from_gives = { λ fault number. number ≡ number_of fault };

    // The verdict's code of a fault.
    fn from(fault: Fault) -> usize {
        match fault {
            Fault::Range => Answer::RANGE,
            Fault::Malformed => Answer::MALFORMED,
        }
    }
}

// An answer of the reader's recursion is one number: a fault's code, or a position plus LIMIT.
// A Result in its place is slower: 14,637 instructions for a formula of 248 bytes, and 10,409 so.
#[derive(Drop)]
pub struct Answer {}

impl Answer {
    pub const RANGE: usize = 6;

    pub const MALFORMED: usize = 7;

    // An answer below this is a fault.
    pub const LIMIT: usize = 8;

    // A byte's position plus this is the answer for the position past the byte.
    pub const PAST_BYTE: usize = Self::LIMIT + 1;
}

// The fault of a code.
fn fault_named(code: usize) -> Fault
    ensures { result ≡ fault_named code }
{
    if code == Answer::RANGE {
        Fault::Range
    } else {
        Fault::Malformed
    }
}

// Whether the operand of a code is in its range: constants from 0, names and threads from 1.
#[tactic(auto, using(limits::proofs::BranchTests::tests), unfolding(crate::specs::Reader::in_range))]
pub fn in_range(counts: Counts, code: u8, operand: u8) -> bool
    ensures { result ≡ in_range counts code operand }
{
    if code == Code::CONST {
        return operand < counts.values;
    }
    if operand == 0 {
        return false;
    }
    if code == Code::REG {
        return operand <= counts.registers;
    }
    if code == Code::SEES {
        return operand <= counts.threads;
    }
    operand <= counts.words
}

// Reads the operand at `at` of a code: the position past it plus LIMIT, or its fault.
pub fn read_operand(image: &[u8], at: usize, code: u8, counts: Counts) -> usize
    ensures { result ≡ operand_answer image.now counts code at }
{
    if image.len() <= at {
        return Answer::MALFORMED;
    }
    if in_range(counts, code, image[at]) {
        return at + Answer::PAST_BYTE;
    }
    Answer::RANGE
}

// Reads a node's own bytes at `at`: the position past them plus LIMIT, or their fault.
pub fn read_head(image: &[u8], at: usize, place: u8, counts: Counts) -> usize
    ensures { result ≡ head_answer image.now counts place at }
{
    if image.len() <= at {
        return Answer::MALFORMED;
    }
    let code = image[at];
    if !fits(code, place) {
        return Answer::MALFORMED;
    }
    if has_operand(code) {
        return read_operand(image, at + 1, code, counts);
    }
    at + Answer::PAST_BYTE
}

// Reads the formula at `at`, nested at most `left` deep: the position past it plus LIMIT, or its first fault. `at` and `left` change apart
// from each other at each step of the recursion, so a struct of them would be taken apart in every call.
pub fn read_at(image: &[u8], at: usize, left: usize, place: u8, counts: Counts) -> usize
    ensures { result ≡ read_answer image.now counts left place at }
{
    if left == 0 {
        return Answer::MALFORMED;
    }
    let head = read_head(image, at, place, counts);
    if head < Answer::LIMIT {
        return head;
    }
    let code = image[at];
    let count = parts(code);
    if count == 0 {
        return head;
    }
    let inner = part_place(code, place);
    if count == 1 {
        return read_at(image, head - Answer::LIMIT, left - 1, inner, counts);
    }
    let first = read_at(image, head - Answer::LIMIT, left - 1, inner, counts);
    if first < Answer::LIMIT {
        return first;
    }
    read_at(image, first - Answer::LIMIT, left - 1, inner, counts)
}

// Reads the bytes of `body` from `at` on as one formula: its sort, which is a place, or its first fault.
pub fn read_record(body: &[u8], at: usize, counts: Counts) -> Result<u8, Fault>
    ensures { result ≡ reading_from body.now counts at }
{
    if body.len() <= at {
        return Err(Fault::Malformed);
    }
    let sort = body[at] / Code::PER_SORT;
    let end = read_at(body, at, Limits::NESTING, sort, counts);
    if end < Answer::LIMIT {
        return Err(fault_named(end));
    }
    if end - Answer::LIMIT == body.len() {
        return Ok(sort);
    }
    Err(Fault::Malformed)
}

// Reads the whole body as one formula.
#[tactic(auto, unfolding(crate::specs::Reader::reading_of))]
pub fn read_formula(body: &[u8], counts: Counts) -> Result<u8, Fault>
    ensures { result ≡ reading_of body.now counts }
{
    Cursor::new(body, 0).formula(counts)
}

// The header: the numbers of threads, words, registers and values; a start value per word; an owning thread and a start mark per
// register.
#![tactic(auto, using(crate::proofs::HeaderBranches::header_search))]

ghost use Rattle.std.specs.Prelude.{◌≡◌};
ghost use Rattle.limits.specs.Numbers.{nth};
ghost use Rattle.image_header.specs.Header.{value_range, header_size, counted, start_values, owners, marks, cleared, headed, header};

use image_frames::fault::Fault;
use limits::Limits;
use limits::range::{byte_within, bytes_within, in_range};
use limits::read::{byte_at, nth_byte, part, u8_at};

// Positions in the header's body: four counts of a byte each, then the lists.
#[derive(Drop)]
pub struct Header;

impl Header {
    pub const THREADS: usize = 0;

    pub const WORDS: usize = 1;

    pub const REGISTERS: usize = 2;

    pub const RANGE: usize = 3;

    pub const LISTS: usize = 4;
}

// The length that the header has by its counts as written.
fn header_size(body: &[u8]) -> usize
    ensures { result ≡ header_size body.now }
{
    let registers = byte_at(body, Header::REGISTERS);
    Header::LISTS + byte_at(body, Header::WORDS) + registers + registers
}

// The list of start values, a byte per word.
fn start_values(body: &[u8]) -> &[u8]
    ensures { result.now ≡ start_values body.now }
{
    part(body, Header::LISTS, byte_at(body, Header::WORDS))
}

// The list of owners: for each register the number of its thread.
pub fn owners_of(body: &[u8]) -> &[u8]
    ensures { result.now ≡ owners body.now }
{
    part(
        body,
        Header::LISTS + byte_at(body, Header::WORDS),
        byte_at(body, Header::REGISTERS),
    )
}

// The list of start marks, a byte per register: 1 if it starts at 0, 0 if it starts anywhere.
fn marks_of(body: &[u8]) -> &[u8]
    ensures { result.now ≡ marks body.now }
{
    let registers = byte_at(body, Header::REGISTERS);
    part(
        body,
        Header::LISTS + byte_at(body, Header::WORDS) + registers,
        registers,
    )
}

// The value range: values are 0 to one below it.
pub fn range_of(body: &[u8]) -> u8
    ensures { result ≡ value_range body.now }
{
    u8_at(body, Header::RANGE)
}

// The start value of word `x`; 0 for a word that is not there.
pub fn start_value(body: &[u8], x: usize) -> u8
    ensures { result ≡ nth (start_values body.now) x 0 }
{
    nth_byte(start_values(body), x) as u8
}

// The thread that owns register `r`; 0 for a register that is not there.
pub fn owner_of(body: &[u8], r: usize) -> usize
    ensures { result ≡ nth (owners body.now) r 0 }
{
    nth_byte(owners_of(body), r)
}

// Whether register `r` starts at 0. A register that is not there counts as one that does.
pub fn is_cleared(body: &[u8], r: usize) -> bool
    ensures { result ≡ cleared body.now r }
{
    let marks = marks_of(body);
    if in_range(r, 1, marks.len()) {
        return nth_byte(marks, r) == 1;
    }
    true
}

// Whether the counts and the range are within the limits, with as many threads as there are thread records (`threads`).
#[tactic(auto, using(image_frames::proofs::Branches::Checks::joined), unfolding(crate::specs::Header::counted))]
fn counts_fit(body: &[u8], threads: usize) -> bool
    ensures { result ≡ counted threads body.now }
{
    byte_within(body, Header::THREADS, threads, threads)
        && byte_within(body, Header::THREADS, 1, Limits::THREADS)
        && byte_within(body, Header::WORDS, 1, Limits::WORDS)
        && byte_within(body, Header::REGISTERS, 0, Limits::REGISTERS)
        && byte_within(
            body,
            Header::RANGE,
            Limits::FEWEST_VALUES,
            Limits::MOST_VALUES,
        )
}

// Whether every number of the header is in its range.
#[tactic(auto, using(crate::proofs::HeaderBranches::headed_search), unfolding(crate::specs::Header::headed))]
fn header_fits(body: &[u8], threads: usize) -> bool
    ensures { result ≡ headed threads body.now }
{
    counts_fit(body, threads)
        && bytes_within(start_values(body), 0, byte_at(body, Header::RANGE) - 1)
        && bytes_within(owners_of(body), 1, byte_at(body, Header::THREADS))
        && bytes_within(marks_of(body), 0, 1)
}

// Checks the header's length, then its numbers; `threads` is the number of thread records.
#[tactic(auto, using(image_frames::proofs::Branches::Checks::checked), unfolding(crate::specs::Header::header))]
pub fn check_header(body: &[u8], threads: usize) -> Result<(), Fault>
    ensures { result ≡ header threads body.now }
{
    if body.len() < Header::LISTS || body.len() != header_size(body) {
        return Err(Fault::Body);
    }
    if !header_fits(body, threads) {
        return Err(Fault::Number);
    }
    Ok(())
}

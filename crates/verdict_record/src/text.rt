// The nine numbers of a verdict as a line of text.
ghost use Rattle.std.specs.Prelude.{◌≡◌, [], ◌∷◌, ◌≤◌, take};
ghost use Rattle.verdict_record.specs.Text.{room, written, added, digits, numbered, place_text, text_of};

use crate::verdict::Fields;

// The numbers and bytes of a line.
#[derive(Drop)]
pub struct Line;

impl Line {
    // More than nine numbers of five digits with a byte after each.
    pub const ROOM: usize = 64;

    // Numbers are below this: those of the record have 16 bits each.
    pub const NUMBERS: usize = 65536;

    pub const DIGITS: usize = 5;

    pub const ZERO: u8 = 48;

    pub const SPACE: u8 = 32;

    pub const NEWLINE: u8 = 10;
}

// A text in a fixed buffer, of which the first `len` bytes are written.
// A buffer with its length beside it: memory is fixed, and the text leaves as a value.
#[derive(Clone, Copy)]
pub struct Text {
    pub bytes: [u8; Line::ROOM],
    pub len: usize,
}

// Appends a byte; a text that is full stays as it is. This bounds the index without a precondition; a line never fills the buffer.
// By hand and no `Display`: the library says which bytes `write!` gives for a `String` alone, and that is on the heap.
#[tactic(auto, using(crate::proofs::TextBranches::put_byte_branches, limits::proofs::BranchTests::tests))]
fn put_byte(text: Text, byte: u8) -> Text
    ensures { (written result ≡ added (written text) (byte ∷ [])) × (result.len ≤ room) }
{
    let mut next = text;
    if Line::ROOM <= text.len {
        next.len = Line::ROOM;
        return next;
    }
    next.bytes[text.len] = byte;
    next.len += 1;
    next
}

// Appends the last `left` decimal digits of a number, without zeros in front if it has fewer.
#[tactic(auto, using(crate::proofs::TextBranches::put_digits_branches, limits::proofs::BranchTests::tests))]
fn put_digits(text: Text, number: usize, left: usize) -> Text
    ensures { written result ≡ added (written text) (digits left number) }
{
    if left == 0 {
        return text;
    }
    if number < 10 {
        return put_byte(text, Line::ZERO + number as u8);
    }
    let front = put_digits(text, number / 10, left - 1);
    put_byte(front, Line::ZERO + (number % 10) as u8)
}

// Appends a number of 16 bits in decimal and the byte after it.
#[tactic(auto, using(crate::proofs::TextBranches::number_put, limits::proofs::BranchTests::tests))]
fn put_number(text: Text, value: usize, behind: u8) -> Text
    ensures { (written result ≡ added (written text) (numbered value behind)) × (result.len ≤ room) }
{
    let number = put_digits(text, value % Line::NUMBERS, Line::DIGITS);
    put_byte(number, behind)
}

// Appends the five numbers from the class to the other point.
fn put_place(text: Text, fields: Fields) -> Text
    ensures { written result ≡ added (written text) (place_text fields) }
{
    let class = put_number(text, fields.class, Line::SPACE);
    let thread = put_number(class, fields.thread, Line::SPACE);
    let point = put_number(thread, fields.point, Line::SPACE);
    let other = put_number(point, fields.other_thread, Line::SPACE);
    put_number(other, fields.other_point, Line::SPACE)
}

// The nine numbers in decimal, one space between, a newline.
pub fn text_of(fields: Fields) -> Text
    ensures { (take result.len result.bytes ≡ text_of fields) × (result.len ≤ room) }
{
    let empty = Text {
        bytes: [0; Line::ROOM],
        len: 0,
    };
    let code = put_number(empty, fields.code as usize, Line::SPACE);
    let record = put_number(code, fields.record, Line::SPACE);
    let place = put_place(record, fields);
    let line = put_number(place, fields.line, Line::SPACE);
    put_number(line, fields.count, Line::NEWLINE)
}

// A line of the certificate: rule, thread, point, left and right formula, premise count, premises.
ghost use Rattle.std.specs.Prelude.{◌≡◌, ◌<◌, get_or};
ghost use Rattle.image_frames.specs.Records.{bodies};
ghost use Rattle.limits.specs.Numbers.{within, every};
ghost use Rattle.image_bodies.specs.Line.{form_of, premises, line_size, triple_at, nowhere, placed, numbered, line_numbers};

use crate::instruction_at::instruction_of;
use image_frames::fault::Fault;
use image_header::instruction::Instruction;
use image_header::sizes::Sizes;
use image_index::indexed::Indexed;
use limits::Limits;
use limits::range::{byte_within, numbers_within, u16_within};
use limits::read::{byte_at, number_at, rest, u8_at};

// What a line says: a triple, an implication, an inclusion of intervals, or a triple for a whole pair; Unlisted if no rule has its
// number.
#[derive(Clone, Copy)]
pub enum Form {
    Triple,
    Implication,
    Inclusion,
    Pair,
    Unlisted,
}

impl Form {
    // The rule numbers of each form.
    pub const FIRST_TRIPLE: usize = 1;

    pub const LAST_TRIPLE: usize = 16;

    pub const FIRST_IMPLICATION: usize = 20;

    pub const LAST_IMPLICATION: usize = 27;

    pub const FIRST_INCLUSION: usize = 30;

    pub const LAST_INCLUSION: usize = 46;

    // The last of the triples of exchange and fetch-add, which follow the inclusions.
    pub const LAST_RESULT: usize = 49;

    // The rule of a triple for a whole pair.
    pub const PAIR: usize = 50;
}

impl From<u8> for Form {
    ghost from_gives = { λ rule form. form ≡ form_of rule };

    // The form of a line, by its rule's number.
    #[tactic(auto, unfolding(crate::specs::Line::form_of))]
    fn from(rule: u8) -> Form {
        match usize::from(rule) {
            Form::FIRST_TRIPLE..=Form::LAST_TRIPLE => Form::Triple,
            Form::FIRST_IMPLICATION..=Form::LAST_IMPLICATION => Form::Implication,
            Form::FIRST_INCLUSION..=Form::LAST_INCLUSION => Form::Inclusion,
            Form::LAST_INCLUSION..=Form::LAST_RESULT => Form::Triple,
            Form::PAIR => Form::Pair,
            _ => Form::Unlisted,
        }
    }
}

// The form of the line in `body`.
pub fn line_form(body: &[u8]) -> Form
    ensures { result ≡ form_of (get_or body.now 0 0) }
{
    Form::from(u8_at(body, 0))
}

// The premise of the line at index `j`, from 0; 0 where there is none.
#[tactic(auto, unfolding(crate::specs::Line::premises))]
pub fn premise(body: &[u8], j: usize) -> usize
    ensures { (result ≡ get_or (premises body.now) j 0) × (result < 65536) }
{
    let l = rest(body, 8);
    number_at(l, byte_at(body, 7), j)
}

// The length that the line has by its premise count as written.
#[tactic(auto, unfolding(crate::specs::Line::line_size))]
fn line_size(body: &[u8]) -> usize
    ensures { result ≡ line_size body.now }
{
    8 + 2 * byte_at(body, 7)
}

// Whether the line names an instruction that is no branch; a point without an instruction counts as a branch.
// Image and sizes stay apart, since each clause names both by themselves, and a struct would lengthen it.
#[tactic(auto, unfolding(crate::specs::Line::triple_at))]
fn triple_placed(image: &Indexed, sizes: Sizes, body: &[u8]) -> bool
    ensures { result ≡ triple_at sizes (bodies image.now) body.now }
{
    let instruction = instruction_of(image, sizes, byte_at(body, 1), byte_at(body, 2));
    instruction.operation != Instruction::BRANCH
}

// Whether the line's thread and point are 0.
#[tactic(auto, unfolding(crate::specs::Line::nowhere))]
fn nowhere_placed(body: &[u8]) -> bool
    ensures { result ≡ nowhere body.now }
{
    byte_within(body, 1, 0, 0) && byte_within(body, 2, 0, 0)
}

// Whether the line's thread and point fit its form. A line of an unlisted rule fits nowhere.
#[tactic(auto, unfolding(crate::specs::Line::placed))]
fn line_placed(image: &Indexed, sizes: Sizes, body: &[u8]) -> bool
    ensures { result ≡ placed sizes (bodies image.now) (form_of (get_or body.now 0 0)) body.now }
{
    match line_form(body) {
        Form::Triple | Form::Pair => triple_placed(image, sizes, body),
        Form::Implication | Form::Inclusion => nowhere_placed(body),
        Form::Unlisted => false,
    }
}

// Whether every premise is a line number from 1 to `lower`.
#[tactic(auto, unfolding(crate::specs::Line::premises))]
fn premises_fit(body: &[u8], lower: usize) -> bool
    ensures { result ≡ every (within 1 lower) (premises body.now) }
{
    let l = rest(body, 8);
    numbers_within(l, byte_at(body, 7), 1, lower)
}

// Whether both formulas exist, and the premises, four at most, are among the `lower` lines before this one.
#[tactic(auto, unfolding(crate::specs::Line::numbered))]
fn line_numbered(body: &[u8], sizes: Sizes, lower: usize) -> bool
    ensures { result ≡ numbered sizes lower body.now }
{
    let formulas = usize::from(sizes.formulas);
    u16_within(body, 3, 1, formulas)
        && u16_within(body, 5, 1, formulas)
        && byte_within(body, 7, 0, Limits::PREMISES)
        && premises_fit(body, lower)
}

// Checks the length and the numbers of a line that has `lower` lines before it.
#[tactic(auto, using(image_frames::proofs::Branches::Checks::checking), unfolding(crate::specs::Line::line_numbers))]
pub fn check_line_numbers(
    image: &Indexed,
    sizes: Sizes,
    lower: usize,
    body: &[u8],
) -> Result<(), Fault>
    ensures { result ≡ line_numbers sizes (bodies image.now) lower body.now }
{
    if body.len() < 8 || body.len() != line_size(body) {
        return Err(Fault::Body);
    }
    if !line_placed(image, sizes, body) || !line_numbered(body, sizes, lower) {
        return Err(Fault::Number);
    }
    Ok(())
}

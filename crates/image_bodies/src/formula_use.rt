// What a formula must be where it is used: its sort, and what must not occur in it.
ghost use Rattle.std.specs.Prelude.{◌≡◌, eqb};
ghost use Rattle.formula.specs.Reader.{sort_of};
ghost use Rattle.image_bodies.specs.FormulaUse.{startless, plain, outlined, plain_of};

use formula::code::{Code, Place};
use formula_compare::has::{has_shared, has_start};
use limits::Limits;
use limits::read::u8_at;

// Whether the formula in `body` has the sort `sort`, which its first code determines.
pub fn is_sort(body: &[u8], sort: u8) -> bool
    ensures { result ≡ eqb (sort_of body.now) sort }
{
    u8_at(body, 0) / Code::PER_SORT == sort
}

// Whether start (27) does not occur in the formula.
#[tactic(auto, unfolding(crate::specs::FormulaUse::startless))]
fn is_startless(body: &[u8]) -> bool
    ensures { result ≡ startless body.now }
{
    !has_start(body, 0, Limits::NESTING)
}

// Whether no word occurs in the formula, as a value or in a flag (2, 14, 15).
#[tactic(auto, unfolding(crate::specs::FormulaUse::plain))]
fn is_plain(body: &[u8]) -> bool
    ensures { result ≡ plain body.now }
{
    !has_shared(body, 0, Limits::NESTING)
}

// Whether the formula may be used in an outline or a triple: an assertion without start.
#[tactic(auto, unfolding(crate::specs::FormulaUse::outlined))]
pub fn is_outlined(body: &[u8]) -> bool
    ensures { result ≡ outlined body.now }
{
    is_sort(body, Place::ASSERTION) && is_startless(body)
}

// Whether the formula may be used in an instruction: one of this sort, over registers alone.
#[tactic(auto, unfolding(crate::specs::FormulaUse::plain_of))]
pub fn is_plain_of(body: &[u8], sort: u8) -> bool
    ensures { result ≡ plain_of sort body.now }
{
    is_sort(body, sort) && is_plain(body)
}

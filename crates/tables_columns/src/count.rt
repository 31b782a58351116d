// The number of rows: the product of the choices for each leaf.
ghost use Rattle.std.specs.Prelude.{◌≡◌, ◌≤◌};
ghost use Rattle.tables_columns.specs.Slots.{slot_tree};
ghost use Rattle.tables_columns.specs.Count.{choices_by, choices_t, capped, rows_up_to};

use crate::slot::{Slot, Slots};
use formula::code::Code;
use formula::node::node_at;

// The choices for a leaf that is no name.
#[derive(Drop)]
pub struct Flag {}

impl Flag {
    // True and false.
    pub const CHOICES: u8 = 2;
}

// The number of choices for a leaf with this code: the range for a register or a word, two for any other leaf.
#[tactic(auto, using(limits::proofs::BranchTests::tests), unfolding(crate::specs::Count::choices_by))]
pub fn choices_by(range: u8, code: usize) -> u8
    ensures { result ≡ choices_by range code }
{
    if code == usize::from(Code::REG) || code == usize::from(Code::WORD) {
        return range;
    }
    Flag::CHOICES
}

// The number of choices for the leaf in a slot: the range for a register or a word, two for any other leaf.
#[tactic(auto, using(crate::proofs::CountBranches::choices_branches, limits::proofs::BranchTests::tests))]
pub fn choices(image: &[u8], range: u8, slot: Slot) -> u8
    ensures { result ≡ choices_t range (slot_tree image.now slot) }
{
    match slot {
        Slot::Plain(code, _) => choices_by(range, code),
        Slot::Whole(place, _) => choices_by(range, usize::from(node_at(image, place).code)),
    }
}

// The product of `n` and `rows`; the limit plus 1 if it is above the limit.
#[tactic(auto, using(crate::proofs::CountBranches::capped_product_branches), unfolding(crate::specs::Count::capped))]
pub fn capped_product(n: u8, rows: u32, limit: u16) -> u32
    ensures { result ≡ capped limit n rows }
{
    let product = u64::from(n) * u64::from(rows);
    if u64::from(limit) < product {
        return u32::from(limit) + 1;
    }
    product as u32
}

// The number of rows of the first `n` slots; the limit plus 1 if it is above the limit.
pub fn count_rows(
    image: &[u8],
    slots: &[Slot; Slots::COUNT],
    n: usize,
    range: u8,
    limit: u16,
) -> u32
    requires { n ≤ 12 }
    ensures { result ≡ rows_up_to image.now slots.now range limit n }
{
    let mut rows = 1;
    for j in 0..n {
        rows = capped_product(choices(image, range, slots[j]), rows, limit);
    }
    rows
}

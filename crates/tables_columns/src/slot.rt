// Slots: the distinct leaves of some formulas, which are the variables of their rows.
ghost use Rattle.std.specs.Prelude.{◌≡◌, ◌≤◌, ◌<◌};
ghost use Rattle.formula.specs.Codes.{part_count};
ghost use Rattle.formula.specs.Tree.{none, node, parse_tree};
ghost use Rattle.tables_columns.specs.Slots.{leaf_slot, same_plain, same_slot, slot_of, slot_within};

use crate::leaf_equal::same_leaf;
use formula::node::{Node, node_at};

// The size of the list of slots.
#[derive(Drop)]
pub struct Slots {}

impl Slots {
    // More leaves than this, with at least two choices each, have more than 4,096 rows.
    pub const COUNT: usize = 12;
}

// A leaf.
#[derive(Clone, Copy)]
pub enum Slot {
    // Without parts, by its code and its operand. No node is the leaf in a slot in which either of them is above 255.
    Plain(usize, usize),
    // By its position, nested at most so deep, and at least one level.
    Whole(usize, usize),
}

impl Slot {
    // What stands in a slot that has no leaf yet.
    pub const EMPTY: Slot = Slot::Plain(0, 0);
}

// The slot for the leaf at `at`, nested at most `left` deep.
// `at` and `left` come from a recursion that takes them apart, so no struct holds them here.
#[tactic(auto, using(crate::proofs::SlotBranches::leaf_slot_branches, limits::proofs::BranchTests::tests))]
pub fn leaf_slot(image: &[u8], at: usize, left: usize) -> Slot
    ensures { result ≡ leaf_slot image.now at left }
{
    let node = node_at(image, at);
    if node.parts == 0 {
        return Slot::Plain(usize::from(node.code), usize::from(node.operand));
    }
    Slot::Whole(at, left)
}

// Whether the formula at `at`, whose root is `node`, is the leaf in the slot. With one level of nesting left a node has no parts.
#[tactic(auto, using(crate::proofs::SlotBranches::same_slot_branches, limits::proofs::BranchTests::tests))]
pub fn same_slot(image: &[u8], at: usize, left: usize, node: Node, slot: Slot) -> bool
    ensures { result ≡ same_slot image.now at left node slot }
{
    match slot {
        Slot::Plain(code, operand) => {
            usize::from(node.code) == code
                && usize::from(node.operand) == operand
                && (node.parts == 0 || left == 1)
        }
        Slot::Whole(place, nested) => {
            let nested = nested.max(1);
            if place == at && nested == left {
                return true;
            }
            same_leaf(image, at, left, place, nested)
        }
    }
}

// Whether the leaf without parts that has this code and operand is the one in the slot.
#[tactic(auto, using(crate::proofs::SlotBranches::same_plain_branches, limits::proofs::BranchTests::tests))]
pub fn same_plain(image: &[u8], code: u8, operand: u8, slot: Slot) -> bool
    ensures { result ≡ same_plain image.now code operand slot }
{
    match slot {
        Slot::Plain(other, its_operand) => {
            usize::from(code) == other && usize::from(operand) == its_operand
        }
        Slot::Whole(place, _) => {
            let other = node_at(image, place);
            code == other.code && operand == other.operand
        }
    }
}

// The first slot that has the leaf without parts with this code and operand; Slots::COUNT if there is none.
pub fn plain_slot(image: &[u8], code: u8, operand: u8, slots: &[Slot; Slots::COUNT]) -> usize
    requires { part_count code ≡ 0 }
    ensures { result ≡ slot_of image.now slots.now (node code operand none none) }
{
    for j in 0..Slots::COUNT {
        if same_plain(image, code, operand, slots[j]) {
            return j;
        }
    }
    Slots::COUNT
}

// The first of `n` slots that has the formula at `at`; `n` if there is none.
pub fn slot_within(
    image: &[u8],
    at: usize,
    left: usize,
    slots: &[Slot; Slots::COUNT],
    n: usize,
) -> usize
    requires { (n ≤ 12) × (0 < left) }
    ensures { result ≡ slot_within image.now slots.now n (parse_tree image.now left at).tree }
{
    let node = node_at(image, at);
    for j in 0..n {
        if same_slot(image, at, left, node, slots[j]) {
            return j;
        }
    }
    n
}

// The first slot that has the formula at `at`; Slots::COUNT if there is none.
#[tactic(auto, using(crate::proofs::SlotBranches::slot_of_branches, limits::proofs::BranchTests::tests))]
pub fn slot_of(image: &[u8], at: usize, left: usize, slots: &[Slot; Slots::COUNT]) -> usize
    ensures { result ≡ slot_of image.now slots.now (parse_tree image.now left at).tree }
{
    if left == 0 {
        return Slots::COUNT;
    }
    slot_within(image, at, left, slots, Slots::COUNT)
}

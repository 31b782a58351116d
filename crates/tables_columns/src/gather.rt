// The leaves of formulas, each once. Formulas are walked from right to left, and the newest leaf is the first of the list. The leaves are
// written into `slots`, and each function returns how many there are; a number above Slots::COUNT means too many.
ghost use Rattle.std.specs.Prelude.{◌≡◌, length};
ghost use Rattle.formula.specs.Tree.{parse_tree};
ghost use Rattle.tables_columns.specs.Gather.{count_put, slot_put, view, put_t, gather_t};

use crate::slot::{Slot, Slots, leaf_slot, slot_within};
use formula::code::contains;
use formula::end::end_at;
use formula::node::node_at;

// Writes a leaf into slot `n` if there is such a slot; returns the number of leaves then.
#[tactic(auto, using(limits::proofs::BranchTests::tests), unfolding(crate::specs::Gather::count_put, crate::specs::Gather::slot_put))]
pub fn put_slot(n: usize, slot: Slot, slots: &mut [Slot; Slots::COUNT]) -> usize
    ensures value { result ≡ count_put n }
    ensures slots_after { slots.new ≡ slot_put n slot slots.old }
{
    if n < Slots::COUNT {
        slots[n] = slot;
        return n + 1;
    }
    Slots::COUNT + 1
}

// `at` and `left` change separately at each step of a recursion, so a struct of them would be taken apart in every call.

// Adds the leaf at `at` unless one of the first `n` slots has it; returns the number of leaves then.
#[tactic(auto, using(crate::proofs::GatherBranches::add_leaf_branches, limits::proofs::BranchTests::tests))]
pub fn add_leaf(
    image: &[u8],
    at: usize,
    left: usize,
    n: usize,
    slots: &mut [Slot; Slots::COUNT],
) -> usize
    ensures slots_after { view image.now result slots.new ≡ put_t (parse_tree image.now left at).tree
        (view image.now n slots.old) }
    ensures slots_len { length slots.new ≡ 12 }
{
    if left == 0 || Slots::COUNT < n || slot_within(image, at, left, slots, n) < n {
        return n;
    }
    put_slot(n, leaf_slot(image, at, left), slots)
}

// Adds the leaves of the formula at `at`, which are the nodes whose code is in `set`; returns the number of leaves then.
#[tactic(auto, using(crate::proofs::GatherBranches::gathers, limits::proofs::BranchTests::tests))]
pub fn gather_at(
    image: &[u8],
    at: usize,
    left: usize,
    set: u32,
    n: usize,
    slots: &mut [Slot; Slots::COUNT],
) -> usize
    ensures slots_after { view image.now result slots.new ≡ gather_t set (parse_tree image.now left at).tree
        (view image.now n slots.old) }
    ensures slots_len { length slots.new ≡ 12 }
{
    if left == 0 {
        return n;
    }
    let node = node_at(image, at);
    if contains(set, node.code) {
        return add_leaf(image, at, left, n, slots);
    }
    if node.parts == 0 {
        return n;
    }
    if node.parts == 1 {
        return gather_at(image, node.next, left - 1, set, n, slots);
    }
    let m = end_at(image, node.next, left - 1);
    let k = gather_at(image, m, left - 1, set, n, slots);
    gather_at(image, node.next, left - 1, set, k, slots)
}

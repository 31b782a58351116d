// The header and the thread records of an image: their numbers (codes 5 and 6), and total look-ups in them.
#![tactic(auto)]

pub mod header;

// Instructions: their bytes, and the ranges of their fields (code 6).
pub mod instruction;
pub mod sizes;

// Thread records: the point count and the instructions in sequence (codes 5 and 6).
pub mod thread;

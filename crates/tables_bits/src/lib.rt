// Truth tables as bits: 64 rows in a machine word, at most 16 words.
#![tactic(auto)]

pub mod bits;

// The truth table of a formula. Its leaves are gathered on the same walk, so that each is compared with the others once.
pub mod truth_table;

// Columns of values of a formula at many rows, and the leaves of formulas: gathered, each once, and their rows counted.
//
// A column is computed in one walk over the formula; row by row, each row would need a walk of its own.
#![tactic(auto)]

pub mod block;
pub mod column;
pub mod combine;

// Leaves of formulas: which nodes are leaves is determined by their codes.
pub mod count;
pub mod gather;
pub mod leaf_equal;
pub mod slot;

// The checker: one image in, one verdict out. `check_image` is its entry point.
#![tactic(auto)]

pub mod acceptance;
pub mod entry;
pub mod judge;

// Comparisons of formulas in an image, in place: equality, substitution, and what occurs in a formula.
#![tactic(auto)]

pub mod replace;
pub mod same;

// What occurs in a formula of an image.
pub mod has;
pub mod occurs;

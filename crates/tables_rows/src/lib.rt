// Entailment between formulas at every row: tests by rows (rules 21, 23, 24 and 30) and assertions by truth table (rule 20).
#![tactic(auto)]

pub mod entailment;
pub mod every_row;

// What the rules call: by rows, and by truth table. One fact on rows serves both.
pub mod by_rows;
pub mod by_table;

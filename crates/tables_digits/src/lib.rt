// Rows that advance like digits: the column of one digit, and the values of a formula at all rows, from the row of zeros on.
#![tactic(auto)]

pub mod rows;
pub mod run;
pub mod slot_column;

// The values of a formula at all rows, a column at a time.
pub mod value_column;

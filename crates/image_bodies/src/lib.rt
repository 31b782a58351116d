// The bodies of all records but the header: codes 5 to 9 and 23, and total look-ups in them.
#![tactic(auto)]

pub mod claim;
pub mod instruction_at;
pub mod line;
pub mod number_list;
pub mod point_counts;

// Uses of formulas, and the threads with their formulas: codes 8, 9 and 23.
pub mod formula_use;
pub mod thread_body;

// The bodies of the other records with their formulas: codes 5 to 9.
pub mod formula_body;
pub mod line_body;
pub mod list_body;
pub mod outline_formulas;

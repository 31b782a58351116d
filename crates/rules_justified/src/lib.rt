// Which lines of a certificate are justified: one pass over the lines, which marks them.
#![tactic(auto)]

// A mark for each line.
pub mod marks;

// The pass: each line is judged once, in order.
pub mod justify;

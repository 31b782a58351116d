// The verdict of the checker: its nine numbers, its record of 22 bytes and its line of text.
#![tactic(auto)]

pub mod fault_code;
pub mod obligation;
pub mod output;
pub mod record;
pub mod verdict;

// The line of text of a verdict: its nine numbers with spaces between, and a newline.
pub mod text;

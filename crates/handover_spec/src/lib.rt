// What a handover to new code is (Change 12), and the tests of its table for two accepted images.
#![tactic(auto)]

// The table of a handover: an entry for each old point, and whether each is in range.
pub mod entries;
pub mod points;
pub mod same_bytes;
pub mod table;

// The lines that the table of a handover names: whether each is a justified implication from the old point's assertion to the new one's.
pub mod lines;

// Why a handover is refused.
pub mod refusal;

// Look-ups in a well-formed image, for the code that judges its lines. Each is total: the types hold that the index and the totals are those
// of the image.
#![tactic(auto)]

pub mod acting_instruction;
pub mod claim;
pub mod formula_position;
pub mod line;
pub mod named_line;
pub mod outline_point;
pub mod totals;

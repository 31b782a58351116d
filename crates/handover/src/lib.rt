// Whether a handover from one accepted image to another is permitted (Change 12): `check_handover` is the entry point.
#![tactic(auto)]

pub mod entry;
pub mod permit;

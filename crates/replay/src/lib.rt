// Replay of a trace on an accepted image; `replay_trace` and `replay_into` are the entry points.
#![tactic(auto)]

// On a table of bytes.
pub mod entry;
pub mod whole;

// On a table of write structs, in place.
pub mod into;
pub mod opening;

// A service for up to eight callers (Change 13), each with an account: its rights and its own number of billed images.
#![tactic(auto)]

// A bill by the caller's own number, and the numbers of a bill or a replay that is refused.
pub mod caller_bill;
pub mod refused;

// The entry points: the opening, and a call for each request.
pub mod entry;
pub mod open;

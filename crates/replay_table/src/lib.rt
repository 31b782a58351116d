// The caller's table of writes as a slice of structs: an entry read, a write inserted, in place; and what loads, stores and swaps have
// to insert, worked out from values.

#![tactic(auto)]

// A write to insert, and the table that it is inserted into.
pub mod order;
pub mod table;

// What loads, stores and swaps do, from the write that they pick.
pub mod access;

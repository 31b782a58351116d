// The shared memory of a replay: the writes of each word in modification order, and the views of threads, in fixed tables.

#![tactic(auto)]

// Writes and views, and the table of writes.
pub mod view;
pub mod write;
pub mod write_table;

// The memory: what loads, stores and swaps do to it.
pub mod access;
pub mod insert;
pub mod memory;

// The table of writes as bytes, for a caller that keeps it so, as a device does: its writes, and what steps do to it.
pub mod bytes;
pub mod bytes_access;

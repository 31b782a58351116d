// A trace run on the caller's table of writes, in place. A step works out what it does from the write that it picks, which was read from
// the table, and hands back the write that is to be inserted.
#![tactic(auto)]

// One step, from values.
pub mod shared;

// The turns of a run: the start writes, then the steps of the trace.
pub mod course;
pub mod next_turn;
pub mod turn;

// The run over the table.
pub mod run_in;

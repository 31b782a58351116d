// The machine of a replay: a trace of steps from the start on, until one is refused, and what is shown of the state reached.
#![tactic(auto)]

// Formulas over registers, worked out at given values.
pub mod evaluate;

// One step: an instruction whose formulas are worked out, by a thread, at a position.
pub mod effect;
pub mod locals;
pub mod shared;

// One step of a trace: refused, or taken.
pub mod pick;
pub mod state;
pub mod step;

// The same over a table of writes that is kept as bytes.
pub mod bytes;

// A trace of steps, from the start on.
pub mod replayed;
pub mod run;
pub mod shown_table;
pub mod start;

// What a replay shows: its answer as numbers, its writes as bytes.
pub mod answer;
pub mod output;
pub mod table_bytes;

// What the programs over stored cases share: files of cases, answers compared with the stored ones, and counters.
//
// A file holds its cases one after the other: the length of a body (32 bits, low byte first), the body, and a tail whose length is the
// same for each case of the file.
//
// A contract cannot speak of what an operating system call read or wrote. So a function that reads promises only how much of a buffer it
// filled, and one that writes promises nothing; what follows from the bytes is left to functions on slices and values, which equal their
// definitions.
#![tactic(auto)]

pub mod case;
pub mod complaint;
pub mod counters;
pub mod counters_line;
pub mod end;
pub mod file;
pub mod number;
pub mod room;
pub mod space;

// The parts of a case, and the answers of replays compared with the stored ones.
pub mod call_answer;
pub mod parts;

// Stored bills, and answers compared with them.
pub mod bill_answer;

// Stored trimmed images, and answers compared with them.
pub mod trim_answer;

// Stored turns at a service, the buffers of their calls, and what a turn left compared with what is stored.
pub mod turn;
pub mod turn_room;
pub mod turn_same;

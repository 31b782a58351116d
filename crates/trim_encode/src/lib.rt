// Trims an accepted image into a buffer: marks its live lines and formulas, renumbers them and encodes what is left.
#![tactic(auto)]

// A well-formed image and its sizes.
pub mod recorded;
pub mod well_formed;

// Marks by number, the new numbers that they give, and the length of the trimmed image.
pub mod marks;
pub mod numbering;
pub mod trimmed_length;

// Live formulas: those that an instruction, the outline or a live line names.
pub mod live_formulas;

// Live lines: those that an obligation or a claim names, and the premises of live lines.
pub mod live_lines;

// Bytes, 16-bit numbers and renumbered references, written to the front of a buffer.
pub mod writer;

// The bodies of claims, lines and threads, written with the new numbers of formulas and lines.
pub mod claim_record;
pub mod line_record;
pub mod thread_record;

// The trimmed image, written record by record to the caller's buffer.
pub mod trimming;
pub mod whole_image;

// The call for an accepted image; specs/Answer.antt has the answer for every byte string.
pub mod answer;
pub mod trim_accepted;

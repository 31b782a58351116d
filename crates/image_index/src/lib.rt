// The index of an image: a table of where its records start and where its instructions begin, filled once per image for fast look-ups.
//
// The table has a meaning for any bytes, with sound frames or not. A record's entry is the number of bytes from its start to the image's
// end, so it is 0 for a record that is not there, and only the entries of existing records need to be written into a zeroed table.
#![tactic(auto)]

pub mod indexed;
pub mod lent;
pub mod starts;
pub mod table;
pub mod walk;

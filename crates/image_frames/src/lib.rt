// Record frames of an image: codes 2 to 4 of the verdict, and where each record's body is.
#![tactic(auto)]

pub mod fault;
pub mod frame;
pub mod kind;
pub mod walk;

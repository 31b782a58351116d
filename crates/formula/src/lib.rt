// Formulas of an image in prefix form: their codes, their nodes, where they end, and the reader that checks them.
#![tactic(auto)]

pub mod code;
pub mod cursor;
pub mod end;
pub mod node;
pub mod reader;

// The check of a whole image: its first fault with the record, or the sizes of a well-formed image.
#![tactic(auto)]

pub mod body;
pub mod decode;

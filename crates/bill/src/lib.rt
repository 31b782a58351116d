// The price of a check (Changes 8 and 11), in total and by thread: `bill` returns the bill for an image, `bill_into` writes its numbers.
#![tactic(auto)]

pub mod bill;
pub mod into;

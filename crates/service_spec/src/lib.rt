// What a service for up to eight callers is (Change 13): each has an account with its rights and its own number of billed images.
#![tactic(auto)]

pub mod opened;
pub mod rights;

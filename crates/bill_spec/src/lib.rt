// What a bill is (Changes 8 and 11), and the bill for an accepted image.
#![tactic(auto)]

// Obligations counted by class and priced by a tariff, for each thread and in total.
pub mod accounts;
pub mod count;
pub mod tariff;

// The bill for an accepted image and its numbers; specs/Promise.antt has what a bill promises.
pub mod answer;
pub mod bill_accepted;
pub mod numbers;

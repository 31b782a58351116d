// The obligations and claims of a well-formed image, each judged against the line that it names.
#![tactic(auto)]

// The image, counted, and the marks of its lines, as one value.
pub mod certificate;

// What an obligation or a claim wants of a line: its goal, a template with every hole filled.
pub mod goal;

// Whether a line concludes a goal and is justified.
pub mod concludes;

// One obligation against the line that it names, and the claims in order.
pub mod claims;
pub mod judgement;

// The obligations of class 4 in order: interference freedom.
pub mod interference;

// All obligations in order, and those of classes 1 to 3.
pub mod all_obligations;
pub mod own_steps;

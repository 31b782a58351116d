#![tactic(auto)]

// The link between the trees that the code's contracts speak of and the formulas of the logic. Definitions and proofs only.

#![tactic(auto)]

// What a replay promises to its callers (specs/), and that it follows the machine of the logic, step by step (proofs/); no code.

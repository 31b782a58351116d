#![tactic(auto)]

// What a well-formed image means: a program, an outline, a certificate and claims of the logic. Definitions and proofs only.

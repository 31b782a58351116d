#![tactic(auto)]

// Certificates and the verdict on obligations and claims (specs/); an accepted outline is true in every run (proofs/); no code.

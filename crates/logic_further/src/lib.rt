#![tactic(auto)]

// Rules beyond the published ones (specs/), sound against the same machine, with programs that they bring (proofs/); no code.

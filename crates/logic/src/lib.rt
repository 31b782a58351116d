// The program logic: rules, derivations, obligations and claims (specs/), with its soundness for every run (proofs/); no code.
#![tactic(auto)]

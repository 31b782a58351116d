// The rules as a table of schemas with a test that computes (specs/), proved equal to the rules of the logic (proofs/); no code.
#![tactic(auto)]

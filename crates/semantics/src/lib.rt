// The semantics of C11 release-acquire-relaxed programs and of assertions about them (specs/), guarded by examples (proofs/); no code.
#![tactic(auto)]

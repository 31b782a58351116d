#![tactic(auto)]

// The verdict on an image, its acceptance and the promise of the checker, and what follows from them. Definitions and proofs only.

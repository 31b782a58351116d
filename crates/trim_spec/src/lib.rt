#![tactic(auto)]

// The specification of trimming, under specs/ and proofs/: an image as typed records, its live lines and formulas, the trimmed document.

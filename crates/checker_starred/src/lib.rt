#![tactic(auto)]

// The starred cases of the scope page, as rows of one table that holds of the definitions; no code.

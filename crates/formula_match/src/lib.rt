// Matching of formulas with templates: the formulas of rule schemas in prefix form, with holes for their metavariables.
#![tactic(auto)]

pub mod bind;
pub mod matching;
pub mod matching_whole;

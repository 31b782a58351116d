// Whether a line of a certificate is an instance of its rule: its conclusion, its premises and the side condition, against the rule table.
#![tactic(auto)]

// What lines and their premises conclude, matched against the templates of rules.
pub mod conclusion;
pub mod line_conclusion;
pub mod premises;

// The tests that side conditions are made of: absence of a name, preservation, substitution, start values, the value written.
pub mod new_value;
pub mod side_tests;

// The side conditions of rules.
pub mod side_conditions;

// Whether a line is an instance of its rule: line and premises matched, then operation and side condition.
pub mod preset;
pub mod rule_instance;

// The rules as a constant table, proved to be the table of the logic, and whether a line is an instance of a rule, on trees.
#![tactic(auto)]

// The row of each rule: the form of its lines, its premises, the allowed operations, its side condition, where its templates begin.
pub mod rule;
// The templates of all rules: schemas as bytes, formulas in prefix form with holes.
pub mod template;

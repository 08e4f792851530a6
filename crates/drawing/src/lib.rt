// Answers drawn for people: trees with indentation, clauses in symbols, lookups with their values, refusals with their names.
#![tactic(auto)]

pub mod clauses;
pub mod labels;
pub mod names;
pub mod out;
pub mod tree;

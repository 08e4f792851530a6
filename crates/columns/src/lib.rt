// What the literals of a clause test of a column, and the lookup that they make.
//
// docs/FORMAT.md has the rules; specs/ has them as definitions.
#![tactic(auto)]

pub mod partial;
pub mod test;

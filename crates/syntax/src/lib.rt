// Syntax rows: what an expression is read into. Their kinds stand here; specs/ has the trees, the rows of a tree, and rows read back as a tree.
// docs/FORMAT.md has the rules.
#![tactic(auto)]

pub mod kind;

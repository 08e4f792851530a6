// The worked examples of docs/FORMAT.md that are marked there as proved: one table and one statement, in specs/Table and proofs/Examples. There is no
// code here.
#![tactic(auto)]

// Tokens: what a caller lends, and what can be said of it before anything is read as an expression.
//
// A caller lends a text, as bytes, and a table of tokens, three numbers each: kind, start and length in the text. This crate knows
// the kinds, the check of the table, and the bytes of a token. docs/FORMAT.md has the rules; specs/ has them as definitions.
#![tactic(auto)]

pub mod kind;
pub mod table;

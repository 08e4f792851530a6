// The steps of a reading that call no reader: what `reader` is made of.
//
// The definitions that they keep to stand in `grammar`; docs/FORMAT.md has them in words.
#![tactic(auto)]

pub mod atom;
pub mod postfix;
pub mod push;
pub mod token;

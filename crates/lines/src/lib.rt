// The text form of the cases that `show` reads: lines, the words of a line, and words as tokens or as numbers.
#![tactic(auto)]

pub mod input;
pub mod kinds;
pub mod numbers;
pub mod scan;
pub mod words;

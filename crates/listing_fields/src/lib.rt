// The fields of a stored line, and the numbers in them.
#![tactic(auto)]

pub mod digits;
pub mod split;

// The fields of a string: one after another by a reader, each of a kind, and whole rows of kinds.
#![tactic(auto)]

pub mod kinds;
pub mod names;
pub mod reader;
pub mod rows;

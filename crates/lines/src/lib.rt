// Bytes gathered into lines, the strings of a block of input, and the words of a line of text.
#![tactic(auto)]

pub mod gathering;
pub mod strings;
pub mod words;

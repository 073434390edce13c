// Numbers as decimal text: printing at a width, in the shortest form and with a sign; parsing
// within bounds.
#![tactic(auto)]

pub mod parse;
pub mod print;

// Scripts of calls: a line of text as a call.
#![tactic(auto)]

pub mod call;
mod hex;
mod names;
mod numbers;
pub mod parse;
pub mod words;
mod writes;

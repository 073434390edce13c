// Strings: which are heard, and what they do.
#![tactic(auto)]

pub mod acting;
pub mod hearing;
pub mod telling;

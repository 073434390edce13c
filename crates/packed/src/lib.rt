// What an image holds, as bytes: rows of numbers in groups of seven bits, and cells made of them.
#![tactic(auto)]

pub mod cells;
pub mod rows;

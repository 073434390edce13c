// A run under way: steps, at-speed and halted from the board, and the order that it is given. Each
// function takes the state and the present cell, or what it needs of it; none copies the memory.
#![tactic(auto)]

pub mod orders;
pub mod reports;
pub mod stepping;

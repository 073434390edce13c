// What is seen of a call, as bytes in a lent buffer: numbers, the order to the board with the
// outputs, the end of a wait.
#![tactic(auto)]

pub mod endings;
pub mod numbers;
pub mod orders;

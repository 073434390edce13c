// What is seen of a drive, as text: the order to the board and the end of a wait, the outputs,
// net steps, bytes, and the weighted sum of bytes. What a line has no place for is cut.
#![tactic(auto)]

pub mod nets;
pub mod orders;
pub mod outputs;
pub mod shown;
pub mod sums;

// Carrying out a program, one millisecond at a time: cells taken by value, runs begun, recovery.
// Each function takes the state, the present cell and, where it needs it, the interrupted record's
// cell.
#![tactic(auto)]

pub mod milliseconds;
mod taking;

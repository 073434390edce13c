// The drive of 01: one value that holds all of it, and a method for each operation. Each method
// takes the drive by value and hands back the next one, or a refusal and the drive as it came. Each
// contract equates what is handed back with the call of 01 that demand 3's lists are made of. Each
// method matches what its operation comes to by itself. Where a refused drive lies at another place of
// the result than one that goes on, the method is not inlined: a compiler that sees both at once
// copies a drive byte by byte, which takes ten times the check.
#![tactic(auto)]

use machine::Machine;
use units::CellAddress;

mod board;
mod making;
pub mod results;
mod signals;
mod time;
mod wrapping;

// A drive: the record of machine, whole. Its fields lie open; an operation checks the record before
// it does anything else.
#[derive(Clone, Copy)]
pub struct Drive {
    pub machine: Machine,
}

impl Drive {
    // The first and the last program cell.
    pub const FIRST: u8 = CellAddress::FIRST;

    pub const LAST: u8 = CellAddress::LAST;
}

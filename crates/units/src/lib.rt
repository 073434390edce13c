// The drive's numbers, each a type of its own, so that one is never taken for another: addresses,
// steps, sums of steps, milliseconds and the position; and the arithmetic of runs on them.
#![tactic(auto)]

ghost use Rattle.std.specs.Prelude.{◌≡◌, ◌-◌};

mod bits;
mod position;
mod ranges;
mod remaining;
mod shift;

pub use position::Position;
pub use ranges::LOOP_LIMIT;
pub use shift::{is_beyond, steps_of};

// 01: "A drive address, a cell address, a count of steps and a count of milliseconds are never
// taken for one another."

// The address of a drive on its line.
#[derive(Clone, Copy, PartialEq, Eq)]
pub struct DriveAddress(pub u8);

// The address of a cell of the program memory; as a next cell, 0 is the end.
#[derive(Clone, Copy, PartialEq, Eq)]
pub struct CellAddress(pub u8);

impl CellAddress {
    // The first and the last program cell.
    pub const FIRST: u8 = 100;

    pub const LAST: u8 = 230;

    // The place of the cell in the memory; of 000, which is no cell, the first.
    pub fn place(self) -> usize
        ensures { result ≡ self.0 - 100 }
    {
        usize::from(self.0.saturating_sub(CellAddress::FIRST))
    }
}

// A count of steps, with the sign of its direction.
#[derive(Clone, Copy, PartialEq, Eq)]
pub struct Steps(pub i32);

// A sum of steps of several runs, with its sign: more than 32 bits hold.
#[derive(Clone, Copy, PartialEq, Eq)]
pub struct NetSteps(pub i64);

// A count of milliseconds.
#[derive(Clone, Copy, PartialEq, Eq)]
pub struct Milliseconds(pub u32);

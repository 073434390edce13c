// What the operations hand back: what was asked for, or why it was refused.
ghost use Rattle.std.specs.Prelude.{◌≡◌};
ghost use Rattle.operations.specs.Results.{number_of};

use machine::answers::End;
use units::Milliseconds;

// Why an operation was refused. 7, of frequency rounding, is frequency's own.
#[derive(Clone, Copy)]
pub enum Refusal {
    // 1: the address of a fresh drive is above 47.
    AddressAbove47,
    // 2: the drive is unsound.
    Unsound,
    // 3: the answer buffer has fewer than 64 bytes.
    ShortBuffer,
    // 4: the inputs word is above 2047.
    WordAbove2047,
    // 5: a step while no run is under way.
    NoRunUnderWay,
    // 6: at-speed outside the run or braking of a ramp run; halted outside both slowings.
    ReportOutOfPlace,
    // 8: the budget of a wait is 0 or above 1,000,000.
    BudgetOutOfRange,
}

impl Refusal {
    // The number that 01 gives it.
    #[tactic(auto, unfolding(crate::specs::Results::number_of))]
    pub fn number(self) -> u8
        ensures { result ≡ number_of self }
    {
        match self {
            Refusal::AddressAbove47 => 1,
            Refusal::Unsound => 2,
            Refusal::ShortBuffer => 3,
            Refusal::WordAbove2047 => 4,
            Refusal::NoRunUnderWay => 5,
            Refusal::ReportOutOfPlace => 6,
            Refusal::BudgetOutOfRange => 8,
        }
    }
}

// How a wait ended, and how many milliseconds it gave.
#[derive(Clone, Copy)]
pub struct Ending {
    pub end: End,
    pub given: Milliseconds,
}

// What the operation hands back.
ghost use Rattle.std.specs.Prelude.{◌≡◌};
ghost use Rattle.totals.specs.Results.{number_of};

pub use instruction::adding::Sums;

// The refusals of 02, Slip 2, with that of an unsound drive.
#[derive(Clone, Copy, PartialEq, Eq)]
pub enum Refusal {
    Unsound,
    NoCell,
    MetTwice,
    OtherCode,
}

impl Refusal {
    // The number that 01 and 02 give it.
    pub fn number(self) -> u8
        ensures { result ≡ number_of self }
    {
        match self {
            Refusal::Unsound => 2,
            Refusal::NoCell => 11,
            Refusal::MetTwice => 12,
            Refusal::OtherCode => 13,
        }
    }
}

// Why an image is refused, and what stands beside it after reading.
ghost use Rattle.std.specs.Prelude.{◌≡◌};
ghost use Rattle.image.specs.Results.{number_of};

use drive::Drive;

// The refusals of 02, Slip 1, with that of an unsound drive.
#[derive(Clone, Copy, Debug, PartialEq, Eq)]
pub enum Refusal {
    Unsound,
    ShortBuffer,
    NotAnImage,
}

impl Refusal {
    // The number that 01 and 02 give it.
    #[tactic(auto, unfolding(crate::specs::Results::number_of))]
    pub fn number(self) -> u8
        ensures { result ≡ number_of self }
    {
        match self {
            Refusal::Unsound => 2,
            Refusal::ShortBuffer => 9,
            Refusal::NotAnImage => 10,
        }
    }
}

// A refused reading, and beside the refusal a drive that every operation refuses.
#[derive(Clone, Copy)]
pub struct Refused {
    pub refusal: Refusal,
    pub drive: Drive,
}

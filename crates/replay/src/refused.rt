// A refusal, by its number, which is what is seen of it.
use drive::results::Refused;

#[derive(Clone, Copy)]
pub struct Number(pub u8);

impl From<Refused> for Number {
    fn from(refused: Refused) -> Number {
        Number(refused.refusal.number())
    }
}

impl From<drive::results::Refusal> for Number {
    fn from(refusal: drive::results::Refusal) -> Number {
        Number(refusal.number())
    }
}

impl From<image::results::Refusal> for Number {
    fn from(refusal: image::results::Refusal) -> Number {
        Number(refusal.number())
    }
}

impl From<image::results::Refused> for Number {
    fn from(refused: image::results::Refused) -> Number {
        Number(refused.refusal.number())
    }
}

impl From<totals::results::Refusal> for Number {
    fn from(refusal: totals::results::Refusal) -> Number {
        Number(refusal.number())
    }
}

impl From<frequency::NoFrequency> for Number {
    fn from(refusal: frequency::NoFrequency) -> Number {
        Number(refusal.number())
    }
}

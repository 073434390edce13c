// The step frequencies of the board, and rounding down to one of them.
#![tactic(auto)]

mod table;

ghost use Rattle.std.specs.Prelude.{◌≡◌};
ghost use Rattle.frequency.specs.Places.{hertz_of, place_of};
ghost use Rattle.frequency.specs.Rounding.{number_of, rounded_as, rounded_of};

use table::FREQUENCIES;

// A step frequency: its place in the table, from 0.
#[derive(Clone, Copy, PartialEq, Eq)]
pub struct Frequency(pub u16);

impl Frequency {
    // How many step frequencies there are.
    pub const COUNT: u16 = 599;

    // The frequency at this place of the table, 0 past its end: up to 309 Hz every number is one,
    // and from there on every divisor down to 20 gives one.
    pub fn hertz(self) -> u16
        ensures { result ≡ hertz_of self }
    {
        let k = self.0;
        if k < 309 {
            return k + 1;
        }
        if k < Frequency::COUNT {
            return (96_000 / (618 - k as u32)) as u16;
        }
        0
    }
}

// The place of the greatest frequency not above a value; of 0 the first. It is computed as `hertz`
// computes the frequency at a place, since a search of the table takes ten reads.
pub fn place(value: u32) -> Frequency
    ensures { result ≡ place_of value }
{
    if value < 2 {
        return Frequency(0);
    }
    if value < 310 {
        return Frequency((value - 1) as u16);
    }
    if 4799 < value {
        return Frequency(598);
    }
    Frequency((617 - 96_000 / (value + 1)) as u16)
}

// The refusal of a value that no frequency stands for.
#[derive(Clone, Copy, PartialEq, Eq)]
pub struct NoFrequency;

impl NoFrequency {
    const NUMBER: u8 = 7;

    // The number that 01 gives it.
    pub fn number(self) -> u8
        ensures { result ≡ number_of self }
    {
        NoFrequency::NUMBER
    }
}

// The greatest frequency not above a value; none for 0 and for more than 4800.
pub fn round(value: u32) -> Result<u16, NoFrequency>
    ensures { rounded_as result ≡ rounded_of value }
{
    if value == 0 || value > 4800 {
        return Err(NoFrequency);
    }
    let table = FREQUENCIES;
    Ok(table[place(value).0 as usize])
}

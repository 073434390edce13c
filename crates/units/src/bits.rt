// Numbers and their 32 bits in two's complement.
ghost use Rattle.std.specs.Prelude.{◌≡◌};
ghost use Rattle.units.specs.Bits.{steps_of, bits_of};

use crate::Steps;

impl Steps {
    // The steps that the bits stand for.
    pub fn from_bits(bits: u32) -> Steps
        ensures { result ≡ steps_of bits }
    {
        Steps(bits.cast_signed())
    }

    // The bits that stand for the steps.
    pub fn bits(self) -> u32
        ensures { result ≡ bits_of self }
    {
        self.0.cast_unsigned()
    }
}

// The position: where the motor stands, and one step from there.
ghost use Rattle.std.specs.Prelude.{◌≡◌};
ghost use Rattle.units.specs.Position.{number_of, stepped_of};

// A number of steps from the origin: 32 bits in two's complement.
#[derive(Clone, Copy, PartialEq, Eq)]
pub struct Position(pub u32);

impl Position {
    // The number that the bits stand for.
    pub fn number(self) -> i64
        ensures { result ≡ number_of self }
    {
        i64::from(self.0.cast_signed())
    }

    // One step on or back; past either end comes the other.
    pub fn stepped(self, forward: bool) -> Position
        ensures { result ≡ stepped_of self forward }
    {
        Position(if forward {
            self.0.wrapping_add(1)
        } else {
            self.0.wrapping_sub(1)
        })
    }
}

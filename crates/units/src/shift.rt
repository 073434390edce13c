// The shift of an indexed run: how far it goes, in i64, where nothing overflows.
ghost use Rattle.std.specs.Prelude.{◌≡◌};
ghost use Rattle.units.specs.Shift.{Within, scaled_of, shift_of, is_beyond_of};

use crate::{Position, Steps};

impl Steps {
    // n times m: m is 4 for x4, else 1.
    pub fn scaled(self, x4: bool) -> i64
        ensures { result ≡ scaled_of self x4 }
    {
        let n = i64::from(self.0);
        if x4 { n * 4 } else { n }
    }

    // The shift of an indexed run of these steps: times m; in absolute mode from the position to them, whatever m is.
    pub fn shift(self, x4: bool, absolute: bool, position: Position) -> i64
        ensures { result ≡ shift_of self x4 absolute position }
    {
        if absolute {
            i64::from(self.0) - position.number()
        } else {
            self.scaled(x4)
        }
    }
}

// Whether a shift is more than the limit, either way.
pub fn is_beyond(shift: i64) -> bool
    ensures { result ≡ is_beyond_of shift }
{
    let limit = i64::from(Steps::LIMIT);
    limit < shift || shift < -limit
}

// A shift within the limit of rests, as steps.
pub fn steps_of(shift: i64) -> Steps
    requires { Within shift }
    ensures { result.0 ≡ shift }
{
    Steps(shift as i32)
}

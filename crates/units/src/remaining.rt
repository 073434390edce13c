// The steps that remain of a run.
ghost use Rattle.std.specs.Prelude.{◌≡◌};
ghost use Rattle.units.specs.Remaining.{is_zero_of, is_negative_of, nearer_of};

use crate::Steps;

impl Steps {
    // Whether none remain.
    pub fn is_zero(self) -> bool
        ensures { result ≡ is_zero_of self }
    {
        self.0 == 0
    }

    // Whether they lead back.
    pub fn is_negative(self) -> bool
        ensures { result ≡ is_negative_of self }
    {
        self.0 < 0
    }

    // What remains after one more step: one less, with the same sign. Of none, none remains.
    pub fn nearer(self) -> Steps
        ensures { result ≡ nearer_of self }
    {
        Steps(self.0 - self.0.signum())
    }
}

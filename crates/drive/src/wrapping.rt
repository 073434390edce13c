// What the methods share: the check that comes first, and an outcome with the whole drive in it.
ghost use Rattle.std.specs.Prelude.{◌≡◌};
ghost use Rattle.machine.specs.Soundness.{sound as sound_of};
ghost use Rattle.drive.specs.Results.{refused_with};

use crate::Drive;
use crate::results::{Refusal, Refused};
use soundness::sound;

impl Drive {
    // What every operation asks first.
    pub(crate) fn is_sound(&self) -> bool
        ensures { result ≡ sound_of self.now.machine }
    {
        sound(self.machine)
    }

    // The drive as it came, with a refusal. Not inlined, as the methods are not.
    #[inline(never)]
    #[tactic(auto, unfolding(crate::specs::Results::refused_with))]
    pub(crate) fn refused(self, refusal: Refusal) -> Refused
        ensures { result ≡ refused_with refusal self }
    {
        Refused {
            refusal,
            drive: self,
        }
    }
}

// Time: a millisecond, a wait.
ghost use Rattle.std.specs.Prelude.{◌≡◌};
ghost use Rattle.machine.specs.Calls.{apply};
ghost use Rattle.machine.specs.Calls.Call.{Millisecond, Wait};
ghost use Rattle.operations.specs.Results.{shown_during};
ghost use Rattle.drive.specs.Results.{done_as, waited_as};

use crate::Drive;
use crate::results::{Refusal, Refused, Waited};
use operations::time;
use units::Milliseconds;

impl Drive {
    // One millisecond.
    #[inline(never)]
    pub fn millisecond(mut self) -> Result<Drive, Refused>
        ensures { done_as result ≡ apply Millisecond self.machine }
    {
        if !self.is_sound() {
            return Err(self.refused(Refusal::Unsound));
        }
        self.machine.state = time::millisecond(&self.machine);
        Ok(self)
    }

    // Milliseconds until the drive is idle, moving or the budget is spent.
    #[inline(never)]
    pub fn wait(mut self, budget: Milliseconds) -> Result<Waited, Refused>
        ensures { waited_as result (shown_during budget.0 self.machine) ≡
            apply (Wait budget.0) self.machine }
    {
        if !self.is_sound() {
            return Err(self.refused(Refusal::Unsound));
        }
        match time::wait(&mut self.machine, budget) {
            Ok(ending) => Ok(Waited {
                ending,
                drive: self,
            }),
            Err(refusal) => Err(self.refused(refusal)),
        }
    }
}

// From the board: a step, at-speed, halted; and the order to it.
ghost use Rattle.std.specs.Prelude.{◌≡◌};
ghost use Rattle.machine.specs.Calls.{apply};
ghost use Rattle.machine.specs.Calls.Call.{Step, AtSpeed, Halted};
ghost use Rattle.machine.specs.Operations.{ordered};
ghost use Rattle.drive.specs.Results.{done_as, ordered_as};

use crate::Drive;
use crate::results::{Refusal, Refused};
use machine::answers::BoardOrder;
use operations::board;

impl Drive {
    // From the board: a step.
    #[inline(never)]
    pub fn step(mut self) -> Result<Drive, Refused>
        ensures { done_as result ≡ apply Step self.machine }
    {
        if !self.is_sound() {
            return Err(self.refused(Refusal::Unsound));
        }
        match board::step(&self.machine) {
            Ok(state) => {
                self.machine.state = state;
                Ok(self)
            }
            Err(refusal) => Err(self.refused(refusal)),
        }
    }

    // From the board: the run has reached its speed.
    #[inline(never)]
    pub fn at_speed(mut self) -> Result<Drive, Refused>
        ensures { done_as result ≡ apply AtSpeed self.machine }
    {
        if !self.is_sound() {
            return Err(self.refused(Refusal::Unsound));
        }
        match board::at_speed(&self.machine) {
            Ok(marked) => {
                self.machine.state = marked;
                Ok(self)
            }
            Err(refusal) => Err(self.refused(refusal)),
        }
    }

    // From the board: the motor stands after slowing.
    #[inline(never)]
    pub fn halted(mut self) -> Result<Drive, Refused>
        ensures { done_as result ≡ apply Halted self.machine }
    {
        if !self.is_sound() {
            return Err(self.refused(Refusal::Unsound));
        }
        match board::halted(&self.machine) {
            Ok(standing) => {
                self.machine.state = standing;
                Ok(self)
            }
            Err(refusal) => Err(self.refused(refusal)),
        }
    }

    // The order to the board.
    #[tactic(auto, unfolding(crate::specs::Results::ordered_as, machine::specs::Operations::ordered, operations::specs::Results::number_of, laws::specs::Tests::choose))]
    pub fn order(self) -> Result<BoardOrder, Refusal>
        ensures { ordered_as result ≡ ordered self.machine }
    {
        if !self.is_sound() {
            return Err(Refusal::Unsound);
        }
        Ok(board::order(&self.machine))
    }
}

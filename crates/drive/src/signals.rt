// From the line and the inputs: a string, an inputs word.
ghost use Rattle.std.specs.Prelude.{◌≡◌, length};
ghost use Rattle.machine.specs.Calls.{apply};
ghost use Rattle.machine.specs.Calls.Call.{SendString, SetInputs};
ghost use Rattle.machine.specs.Operations.{buffer_after};
ghost use Rattle.drive.specs.Results.{done_as, told_as, length_of};

use crate::Drive;
use crate::results::{Refusal, Refused, Told};
use operations::signals;

impl Drive {
    // A string, with a buffer of at least 64 bytes lent for its answer.
    pub fn string(mut self, text: &[u8], buffer: &mut [u8]) -> Result<Told, Refused>
        ensures buffer_after { told_as result buffer.new ≡
            apply (SendString text.now buffer.old) self.machine }
        ensures length { length_of result ≡
            length (apply (SendString text.now buffer.old) self.machine).answer }
        ensures buffer { buffer.new ≡
            buffer_after text.now buffer.old self.machine }
    {
        if !self.is_sound() {
            return Err(self.refused(Refusal::Unsound));
        }
        match signals::string(&mut self.machine, text, buffer) {
            Ok(length) => Ok(Told {
                length,
                drive: self,
            }),
            Err(refusal) => Err(self.refused(refusal)),
        }
    }

    // An inputs word: bits 0 to 10 are I0, I1, I2, PX, S0 to S3, ST, ES, EE.
    #[inline(never)]
    pub fn inputs(mut self, word: u16) -> Result<Drive, Refused>
        ensures { done_as result ≡ apply (SetInputs word) self.machine }
    {
        if !self.is_sound() {
            return Err(self.refused(Refusal::Unsound));
        }
        match signals::inputs(&self.machine, word) {
            Ok(state) => {
                self.machine.state = state;
                Ok(self)
            }
            Err(reason) => Err(self.refused(reason)),
        }
    }
}

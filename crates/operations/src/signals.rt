// From the line and the inputs: a string, an inputs word.
ghost use Rattle.std.specs.Prelude.{◌≡◌, true};
ghost use Rattle.machine.specs.Soundness.{sound};
ghost use Rattle.machine.specs.Calls.{act};
ghost use Rattle.machine.specs.Calls.Call.{SendString, SetInputs};
ghost use Rattle.operations.specs.Results.{acted_on, Answering};

use crate::events;
use crate::parts::present_cell;
use crate::results::Refusal;
use machine::{Machine, State};
use serial::telling::tell;

// A string, with a buffer of at least 64 bytes lent for its answer: how many bytes at the front of
// the buffer answer it, 0 for silence.
pub fn string(machine: &mut Machine, text: &[u8], buffer: &mut [u8]) -> Result<usize, Refusal>
    requires { sound machine.old ≡ true }
    ensures { Answering result machine.new buffer.old buffer.new
        (act (SendString text.now buffer.old) machine.old) }
{
    if buffer.len() < 64 {
        return Err(Refusal::ShortBuffer);
    }
    let told = tell(*machine, text, buffer);
    *machine = told.machine;
    Ok(told.length)
}

// An inputs word: bits 0 to 10 are I0, I1, I2, PX, S0 to S3, ST, ES, EE.
pub fn inputs(machine: &Machine, word: u16) -> Result<State, Refusal>
    requires { sound machine.now ≡ true }
    ensures { acted_on machine.now result ≡ act (SetInputs word) machine.now }
{
    events::inputs(word, machine.state, present_cell(machine))
}

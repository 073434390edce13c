// The cell that most operations look at.
ghost use Rattle.std.specs.Prelude.{◌≡◌, true};
ghost use Rattle.instruction.specs.Soundness.{cell_sound};
ghost use Rattle.machine.specs.Soundness.{sound as sound_of};
ghost use Rattle.machine.specs.Milliseconds.{present};

use instruction::Cell;
use machine::Machine;

// The present cell; an idle drive has none, and the first cell serves.
pub fn present_cell(machine: &Machine) -> Cell
    requires { sound_of machine.now ≡ true }
    ensures state_value { present machine.now.cells machine.now.state ≡ result }
    ensures sound { cell_sound result ≡ true }
{
    let at = machine.state.running.cell;
    machine.cells[at.place()]
}

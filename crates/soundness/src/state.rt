// The tests of the whole state, given the two cells that it names.
ghost use Rattle.std.specs.Prelude.{◌≡◌, List};
ghost use Rattle.machine.specs.Soundness.{state_sound};
ghost use Rattle.soundness.specs.Places.{Holds};

use crate::ranges::{cam_sound, fault_sound, presets_sound};
use crate::running::running_sound;
use crate::suspended::suspended_sound;
use instruction::Cell;
use machine::State;

// Whether the state is sound, given the interrupted record's cell and the present one. A position
// of 32 bits is always in range.
pub fn state_sound(state: State, held: Cell, present: Cell) -> bool
    ensures { (cells : List Cell) →
        Holds cells state.suspended.cell held.instruction →
        Holds cells state.running.cell present.instruction →
        result ≡ state_sound cells state }
{
    presets_sound(state.presets)
        & cam_sound(state.cam)
        & fault_sound(state.fault)
        & suspended_sound(state.suspended, held.instruction)
        & running_sound(state.running, present.instruction)
}

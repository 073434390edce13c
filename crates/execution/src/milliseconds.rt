// One millisecond: a cell taken, or a delay counted down.
ghost use Rattle.std.specs.Prelude.{◌≡◌, true};
ghost use Rattle.instruction.specs.Soundness.{cell_sound};
ghost use Rattle.machine.specs.Milliseconds.{millisecond_at};

use crate::taking::take_cell;
use changes::{changed, is_more, next_change};
use instruction::Cell;
use machine::State;
use progress::idle;

// One millisecond, given the present cell and the interrupted record's cell.
pub fn millisecond(state: State, cell: Cell, held: Cell) -> State
    requires { (cell_sound cell ≡ true) × (cell_sound held ≡ true) }
    ensures { result ≡ millisecond_at state cell held }
{
    if idle(state) {
        return state;
    }
    let change = next_change(&state, cell);
    if is_more(change) {
        take_cell(state, cell, held)
    } else {
        changed(state, change)
    }
}

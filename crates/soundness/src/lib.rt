// Whether the whole record of a drive is sound, in one pass over its 131 cells. Every public call
// asks this first, so no test leaves the pass early and each cell is read where it lies.
#![tactic(auto)]

ghost use Rattle.std.specs.Prelude.{◌≡◌};
ghost use Rattle.machine.specs.Soundness.{sound as sound_of};
ghost use Rattle.soundness.specs.Places.{place_of};

use crate::ranges::is_cell;
use crate::state::state_sound;
use machine::Machine;
use units::CellAddress;

mod ranges;
mod remaining;
mod running;
mod state;
mod suspended;

// The place in the memory of an address that a record holds. One that is no cell's is refused by
// the state's own tests, whatever stands there, and has the first place.
#[tactic(auto, unfolding(crate::specs::Places::place_of, laws::specs::Tests::choose))]
fn place(address: CellAddress) -> usize
    ensures { result ≡ place_of address }
{
    if is_cell(address) { address.place() } else { 0 }
}

// Whether every cell is sound, and the state beside them.
#[tactic(auto, using(crate::proofs::Pass::place_within))]
pub fn sound(machine: Machine) -> bool
    ensures { result ≡ sound_of machine }
{
    let mut ok = true;
    for cell in &machine.cells {
        ok &= cell.sound();
    }
    let state = machine.state;
    let held = machine.cells[place(state.suspended.cell)];
    let present = machine.cells[place(state.running.cell)];
    ok & state_sound(state, held, present)
}

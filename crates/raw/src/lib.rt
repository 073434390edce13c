// Raw writes: the record read as integers, one of them changed, and the record put together again.
// So a script makes records that no call leads to. Integers are 64 bits in two's complement.
#![tactic(auto)]

ghost use Rattle.std.specs.Prelude.{◌≡◌};
ghost use Rattle.raw.specs.Writes.{put_together};
ghost use Rattle.raw.specs.Writes.{field_written, output_written, cell_written};

use crate::remaining::Counts;
use instruction::Cell;
use machine::{Machine, State};

mod cells;
mod integers;
mod names;
mod remaining;
mod states;

// The record of its parts, or that it cannot hold the counts. What remains of an interrupted cell
// is one of milliseconds where the cell holds a 65.
#[tactic(auto, unfolding(crate::specs::Writes::put_together, crate::specs::Writes::written_with))]
fn put_together(cells: [Cell; 131], state: State, counts: Counts) -> Option<Machine>
    ensures { result ≡ put_together cells state counts }
{
    let timed = remaining::holds_delay(cells, state.suspended.cell);
    let state = remaining::in_units(state, counts, timed)?;
    Some(Machine { state, cells })
}

// The record with a field, by its place in the list of names, set to an integer; nothing where it
// cannot hold that.
#[tactic(auto, unfolding(crate::specs::Writes::field_written, laws::specs::Tests::choose))]
pub fn write_field(machine: Machine, place: usize, value: u64) -> Option<Machine>
    ensures { result ≡ field_written machine place value }
{
    let field = names::field_at(place);
    if !states::fits(field, value) {
        return None;
    }
    let counts = states::counts_with(remaining::counts_of(machine.state), field, value);
    let state = states::with_field(machine.state, field, value);
    put_together(machine.cells, state, counts)
}

// An output, by its place, set to 0 or 1.
#[tactic(auto, unfolding(crate::specs::Writes::output_written, laws::specs::Tests::choose, laws::specs::Tests::both))]
pub fn write_output(machine: Machine, output: usize, value: u32) -> Option<Machine>
    ensures { result ≡ output_written machine output value }
{
    if 14 <= output || 1 < value {
        return None;
    }
    let mut state = machine.state;
    state.outputs[output] = value == 1;
    put_together(machine.cells, state, remaining::counts_of(machine.state))
}

// A cell, by its place, set to a code, its parameters and its next.
#[tactic(auto, unfolding(crate::specs::Writes::cell_written, crate::specs::Writes::with_cell, laws::specs::Tests::choose))]
pub fn write_cell(machine: Machine, place: usize, numbers: [u64; 7]) -> Option<Machine>
    ensures { result ≡ cell_written machine place numbers }
{
    if 131 <= place {
        return None;
    }
    let cell = cells::cell(numbers)?;
    let mut cells = machine.cells;
    cells[place] = cell;
    put_together(cells, machine.state, remaining::counts_of(machine.state))
}

// Events on the state of a sound drive, given its present cell: what each comes to, its own refusal
// included. Whoever has many for one drive reads the cell and gives the state, and no event copies
// the 131 cells.
ghost use Rattle.std.specs.Prelude.{◌≡◌, true};
ghost use Rattle.instruction.specs.Soundness.{cell_sound};
ghost use Rattle.operations.specs.Events.{stepped_at, at_speed_at, halted_on, worded_at};

use crate::results::Refusal;
use inputs::input_word;
use instruction::Cell;
use machine::State;
use motion::reports::{takes_at_speed, takes_halted};
use progress::moving;

// A step.
#[tactic(auto, unfolding(crate::specs::Events::stepped_at, laws::specs::Tests::choose))]
pub fn step(state: State, cell: Cell) -> Result<State, Refusal>
    ensures { result ≡ stepped_at state cell }
{
    if !moving(state) {
        return Err(Refusal::NoRunUnderWay);
    }
    Ok(motion::stepping::step(state, cell))
}

// The run has reached its speed.
#[tactic(auto, unfolding(crate::specs::Events::at_speed_at, laws::specs::Tests::choose, machine::specs::Reports::takes_at_speed_at))]
pub fn at_speed(state: State, cell: Cell) -> Result<State, Refusal>
    ensures { result ≡ at_speed_at state cell }
{
    if !takes_at_speed(state.running.phase, cell.instruction.profile()) {
        return Err(Refusal::ReportOutOfPlace);
    }
    Ok(motion::reports::at_speed(state))
}

// The motor stands after slowing.
#[tactic(auto, unfolding(crate::specs::Events::halted_on, laws::specs::Tests::choose, machine::specs::Reports::halted_at))]
pub fn halted(state: State, cell: Cell) -> Result<State, Refusal>
    ensures { result ≡ halted_on state cell }
{
    if !takes_halted(state) {
        return Err(Refusal::ReportOutOfPlace);
    }
    let motion = cell.instruction.profile().motion;
    Ok(motion::reports::halted(motion, state, cell.next))
}

// An inputs word: bits 0 to 10 are I0, I1, I2, PX, S0 to S3, ST, ES, EE.
#[tactic(auto, unfolding(crate::specs::Events::worded_at, laws::specs::Tests::choose))]
pub fn inputs(word: u16, state: State, cell: Cell) -> Result<State, Refusal>
    requires { cell_sound cell ≡ true }
    ensures { result ≡ worded_at word state cell }
{
    if 2047 < word {
        return Err(Refusal::WordAbove2047);
    }
    Ok(input_word(word, state, cell))
}

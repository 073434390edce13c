// An inputs word: what it does to a drive, given the state and the cell that is present before it.
#![tactic(auto)]

ghost use Rattle.std.specs.Prelude.{◌≡◌, true};
ghost use Rattle.instruction.specs.Soundness.{cell_sound};
ghost use Rattle.machine.specs.InputWords.{inputs_of, selected_cell, starts as starts_of};
ghost use Rattle.machine.specs.InputWords.{judged_st, judged_ee, judged_es, judged_px, input_word_at};

use instruction::Cell;
use machine::State;
use progress::{idle, started};
use stops::emergency::emergency_stop;
use stops::free_run::free_run_stop;
use stops::px::px_seen;
use units::CellAddress;

// The inputs that a word names, the lowest bit first.
pub fn inputs_of(word: u16) -> [bool; 11]
    ensures { result ≡ inputs_of word }
{
    let mut inputs = [false; 11];
    let mut left = word;
    for input in &mut inputs {
        *input = left % 2 == 1;
        left /= 2;
    }
    inputs
}

// The cell that S0 to S3 select.
#[tactic(auto, unfolding(machine::specs::InputWords::selected_cell, instruction::specs::Numbers::bit_of))]
pub fn selected_cell(state: State) -> CellAddress
    ensures { result ≡ selected_cell state }
{
    let s0 = u8::from(state.inputs[State::S0]);
    let s1 = u8::from(state.inputs[State::S0 + 1]);
    let s2 = u8::from(state.inputs[State::S0 + 2]);
    let s3 = u8::from(state.inputs[State::S0 + 3]);
    CellAddress(100 + s0 + 2 * s1 + 4 * s2 + 8 * s3)
}

// Whether ST starts a program: judged on the drive before the word, with the word's other inputs.
#[tactic(auto, unfolding(laws::specs::Tests::both, machine::specs::InputWords::starts))]
pub fn starts(before: State, state: State) -> bool
    ensures { result ≡ starts_of before state }
{
    idle(before)
        && !before.inputs[State::ST]
        && state.inputs[State::ST]
        && !state.inputs[State::EE]
        && !(state.presets.interlock && state.inputs[State::ES])
}

#[tactic(auto, unfolding(laws::specs::Tests::choose, machine::specs::InputWords::judged_st))]
pub fn judged_st(before: State, state: State) -> State
    ensures { result ≡ judged_st before state }
{
    if starts(before, state) {
        started(state, selected_cell(state))
    } else {
        state
    }
}

#[tactic(auto, unfolding(laws::specs::Tests::choose, machine::specs::InputWords::judged_ee))]
pub fn judged_ee(state: State, cell: Cell) -> State
    ensures { result ≡ judged_ee state cell }
{
    if state.inputs[State::EE] {
        emergency_stop(state, cell)
    } else {
        state
    }
}

#[tactic(auto, using(machine::proofs::Cells::steps_within_run), unfolding(laws::specs::Tests::choose, machine::specs::InputWords::judged_es, machine::specs::Stopping::free_run_stop_at))]
pub fn judged_es(state: State, cell: Cell) -> State
    requires { cell_sound cell ≡ true }
    ensures { result ≡ judged_es state cell }
{
    if state.inputs[State::ES] {
        free_run_stop(state, cell.instruction.profile(), cell.next)
    } else {
        state
    }
}

#[tactic(auto, unfolding(machine::specs::InputWords::judged_px, machine::specs::Stopping::px_seen_at))]
pub fn judged_px(state: State, cell: Cell) -> State
    ensures { result ≡ judged_px state cell }
{
    let profile = cell.instruction.profile();
    px_seen(state.inputs[State::PX], state, profile, cell.next)
}

// An inputs word: ST, then EE, ES and PX, at the cell that is present before it.
#[tactic(auto, unfolding(machine::specs::InputWords::judged_word, machine::specs::InputWords::input_word_at))]
pub fn input_word(word: u16, state: State, cell: Cell) -> State
    requires { cell_sound cell ≡ true }
    ensures { result ≡ input_word_at word state cell }
{
    let seen = State {
        inputs: inputs_of(word),
        ..state
    };
    let begun = judged_st(state, seen);
    let ended = judged_ee(begun, cell);
    let stopped = judged_es(ended, cell);
    judged_px(stopped, cell)
}

// What a command does to the state, given the cell that it names.
ghost use Rattle.std.specs.Prelude.{◌<◌, ◌≡◌, true};
ghost use Rattle.instruction.specs.Soundness.{cell_sound};
ghost use Rattle.machine.specs.Record.{nothing_suspended, with_suspended, with_presets, with_position};
ghost use Rattle.machine.specs.Record.{with_output, with_cam};
ghost use Rattle.machine.specs.Commands.{placed};
ghost use Rattle.machine.specs.Acting.{same_content, stored_state, preset_set};
ghost use Rattle.machine.specs.Acting.{named as named_of, acted_at};

use instruction::Cell;
use machine::commands::{Command, PresetValue};
use machine::{Cam, Presets, State, Suspended};
use progress::started;
use stops::emergency::emergency_stop;
use stops::free_run::free_run_stop;
use units::{CellAddress, Position};

// Whether two cells hold the same instruction, with its next: by code and numbers, as the
// definition has it, since a derived `==` tells unsound cells apart that it does not.
pub fn same_content(a: Cell, b: Cell) -> bool
    ensures { result ≡ same_content a b }
{
    (a.instruction.code() == b.instruction.code()) & (a.numbers() == b.numbers())
}

fn emptied(mut state: State) -> State
    ensures { result ≡ with_suspended state nothing_suspended }
{
    state.suspended = Suspended::EMPTY;
    state
}

// Changed content in the interrupted record's cell empties the record.
fn stored(state: State, at: CellAddress, old: Cell, new: Cell) -> State
    ensures { result ≡ stored_state state at old new }
{
    if at.0 != state.suspended.cell.0 {
        return state;
    }
    if same_content(old, new) {
        return state;
    }
    emptied(state)
}

#[tactic(auto, unfolding(machine::specs::Acting::preset_set))]
fn preset_set(mut presets: Presets, value: PresetValue) -> Presets
    ensures { result ≡ preset_set presets value }
{
    match value {
        PresetValue::Address(address) => {
            presets.address = address;
            presets
        }
        PresetValue::Current(current) => {
            presets.current = current;
            presets
        }
        PresetValue::Resolution(resolution) => {
            presets.resolution = resolution;
            presets
        }
        PresetValue::Interlock(on) => {
            presets.interlock = on;
            presets
        }
        PresetValue::Absolute(on) => {
            presets.absolute = on;
            presets
        }
    }
}

fn preset_stored(mut state: State, value: PresetValue) -> State
    ensures { result ≡ with_presets state (preset_set state.presets value) }
{
    state.presets = preset_set(state.presets, value);
    state
}

fn position_set(mut state: State, bits: u32) -> State
    ensures { result ≡ with_position state (record { 0 = bits }) }
{
    state.position = Position(bits);
    state
}

fn output_set(mut state: State, output: u8, on: bool) -> State
    requires { output < 14 }
    ensures { result ≡ with_output state output on }
{
    state.outputs[usize::from(output)] = on;
    state
}

fn cam_set(mut state: State, set: bool, bits: u32) -> State
    ensures { result ≡ with_cam state (record { set = set; position = record { 0 = bits } }) }
{
    state.cam = Cam {
        set,
        position: Position(bits),
    };
    state
}

// The state after a command. The cell is the one named by `named`.
#[tactic(auto, using(machine::proofs::Cells::steps_within_run), unfolding(machine::specs::Acting::acted_at, machine::specs::Stopping::free_run_stop_at))]
pub fn acted(command: Command, state: State, cell: Cell) -> State
    requires { (placed command ≡ true) × (cell_sound cell ≡ true) }
    ensures { result ≡ acted_at command state cell }
{
    match command {
        Command::Store { at, cell: new } => stored(state, at, cell, new),
        Command::SetPreset { value } => preset_stored(state, value),
        Command::Start { at } => started(state, at),
        Command::EmergencyStop => emergency_stop(state, cell),
        Command::FreeRunStop => free_run_stop(state, cell.instruction.profile(), cell.next),
        Command::SetPosition { bits } => position_set(state, bits),
        Command::SetOutput { output, on } => output_set(state, output, on),
        Command::SetCam { set, bits } => cam_set(state, set, bits),
        Command::AskPosition
        | Command::AskPreset { .. }
        | Command::AskInput { .. }
        | Command::AskOutput { .. }
        | Command::AskCell { .. }
        | Command::AskCam
        | Command::AskFault
        | Command::AskSuspended
        | Command::Wrong => state,
    }
}

// The cell that a command is about: the one that it stores or asks for, else the present one.
#[tactic(auto, unfolding(machine::specs::Acting::named))]
pub fn named(command: Command, state: State) -> CellAddress
    ensures { result ≡ named_of command state }
{
    match command {
        Command::Store { at, .. } | Command::AskCell { at } => at,
        _ => state.running.cell,
    }
}

// How a program goes: starting it, going on to the next cell, ending it, and the phases of a run.
#![tactic(auto)]

ghost use Rattle.std.specs.Prelude.{◌≡◌};
ghost use Rattle.machine.specs.Record.{at_rest, idle as idle_of, moving as moving_of, under_way};
ghost use Rattle.machine.specs.Record.{stopped as stopped_of};
ghost use Rattle.machine.specs.Starting.{waiting_at, started as started_of, advanced as advanced_of};
ghost use Rattle.machine.specs.Starting.{failed as failed_of, in_phase, entered as entered_of};
ghost use Rattle.progress.specs.Passing.{passed_to};

use machine::{Fault, Phase, Remaining, Running, State};
use units::CellAddress;

pub fn at_rest() -> Running
    ensures { result ≡ at_rest }
{
    waiting_at(CellAddress(0), 0)
}

pub fn waiting_at(cell: CellAddress, loops: u16) -> Running
    ensures { result ≡ waiting_at cell loops }
{
    Running {
        cell,
        phase: Phase::Waiting,
        remaining: Remaining::Nothing,
        loops,
        at_speed: false,
    }
}

// Becomes idle.
pub fn stopped(mut state: State) -> State
    ensures { result ≡ stopped_of state }
{
    state.running = at_rest();
    state
}

pub fn started(mut state: State, at: CellAddress) -> State
    ensures { result ≡ started_of state at }
{
    state.fault = Fault::NONE;
    state.running = waiting_at(at, 0);
    state
}

// The running part after a cell is passed: at the next cell, or at rest where that is 000.
#[tactic(auto, unfolding(crate::specs::Passing::passed_to, laws::specs::Tests::choose))]
pub fn passed(next: CellAddress, loops: u16) -> Running
    ensures { result ≡ passed_to next loops }
{
    if next.0 == 0 {
        at_rest()
    } else {
        waiting_at(next, loops)
    }
}

// Goes on to the next cell, or ends at 000.
#[tactic(auto, using(crate::proofs::Passing::passing))]
pub fn advanced(mut state: State, next: CellAddress) -> State
    ensures { result ≡ advanced_of state next }
{
    state.running = passed(next, state.running.loops);
    state
}

// Ends the program and notes the error.
pub fn failed(mut state: State, code: u8) -> State
    ensures { result ≡ failed_of state code }
{
    let cell = state.running.cell;
    state.fault = Fault { code, cell };
    stopped(state)
}

// The same cell in another phase, with at_speed as it was.
pub fn in_phase(mut state: State, phase: Phase, remaining: Remaining) -> State
    ensures { result ≡ in_phase state phase remaining }
{
    state.running.phase = phase;
    state.running.remaining = remaining;
    state
}

// The same cell in a phase that begins with at_speed clear.
pub fn entered(mut state: State, phase: Phase, remaining: Remaining) -> State
    ensures { result ≡ entered_of state phase remaining }
{
    state.running.at_speed = false;
    in_phase(state, phase, remaining)
}

#[tactic(auto, unfolding(machine::specs::Record::idle))]
pub fn idle(state: State) -> bool
    ensures { result ≡ idle_of state }
{
    state.running.cell.0 == 0
}

pub fn under_way(phase: Phase) -> bool
    ensures { result ≡ under_way phase }
{
    !matches!(phase, Phase::Waiting | Phase::Delay)
}

#[tactic(auto, unfolding(machine::specs::Record::moving))]
pub fn moving(state: State) -> bool
    ensures { result ≡ moving_of state }
{
    under_way(state.running.phase)
}

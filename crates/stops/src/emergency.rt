// The emergency stop.
ghost use Rattle.std.specs.Prelude.{◌≡◌};
ghost use Rattle.machine.specs.Stopping.{interrupted as interrupted_of, abandoned as abandoned_of};
ghost use Rattle.machine.specs.Stopping.{emergency_slowed, emergency_stop_at};

use instruction::{Cell, Instruction};
use machine::{Phase, State, Suspended};
use progress::{idle, in_phase, stopped};

// Ends the program, which can be resumed.
pub fn interrupted(mut state: State) -> State
    ensures { result ≡ interrupted_of state }
{
    state.suspended = Suspended {
        cell: state.running.cell,
        remaining: state.running.remaining,
        loops: state.running.loops,
    };
    stopped(state)
}

// Ends the program, and nothing is left to resume.
pub fn abandoned(mut state: State) -> State
    ensures { result ≡ abandoned_of state }
{
    state.suspended = Suspended::EMPTY;
    stopped(state)
}

// Slows for an emergency stop, with all that the run has.
pub fn emergency_slowed(state: State) -> State
    ensures { result ≡ emergency_slowed state }
{
    in_phase(state, Phase::EmergencySlowing, state.running.remaining)
}

// The emergency stop: a busy program ends, at once or after slowing. A 69 that is not yet taken
// leaves the record as it is.
#[tactic(auto, using(machine::proofs::Variants::not_recovery), unfolding(laws::specs::Tests::choose, machine::specs::Stopping::emergency_in, machine::specs::Stopping::emergency_stop_at, machine::specs::Taking::is_recovery, instruction::specs::Codes::code_of))]
pub fn emergency_stop(state: State, cell: Cell) -> State
    ensures { result ≡ emergency_stop_at state cell }
{
    if idle(state) {
        return state;
    }
    match state.running.phase {
        Phase::Waiting if matches!(cell.instruction, Instruction::Recovery) => stopped(state),
        // Only a run with a ramp has to slow.
        Phase::Run if cell.instruction.profile().ramp != 0 => emergency_slowed(state),
        Phase::Waiting | Phase::Delay | Phase::Run | Phase::BackOff => interrupted(state),
        Phase::Braking | Phase::Slowing => emergency_slowed(state),
        Phase::EmergencySlowing => state,
    }
}

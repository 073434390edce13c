// At-speed and halted, reported by the board.
ghost use Rattle.std.specs.Prelude.{◌≡◌};
ghost use Rattle.machine.specs.Reports.{runs_or_brakes, takes_at_speed_in, at_speed};
ghost use Rattle.machine.specs.Reports.{slows as slows_of, takes_halted};
ghost use Rattle.machine.specs.Reports.{halted_in};

use instruction::run::{Motion, Profile};
use machine::{Phase, Remaining, State};
use progress::{advanced, entered};
use stops::emergency::{abandoned, interrupted};
use units::CellAddress;

fn runs_or_brakes(phase: Phase) -> bool
    ensures { result ≡ runs_or_brakes phase }
{
    matches!(phase, Phase::Run | Phase::Braking)
}

// Whether at-speed is expected: in the run or braking of a ramp run.
#[tactic(auto, unfolding(laws::specs::Tests::choose, machine::specs::Reports::takes_at_speed_in))]
pub fn takes_at_speed(phase: Phase, profile: Profile) -> bool
    ensures { result ≡ takes_at_speed_in phase profile }
{
    runs_or_brakes(phase) && profile.ramp != 0
}

// Sets the at-speed mark.
pub fn at_speed(mut state: State) -> State
    ensures { result ≡ at_speed state }
{
    state.running.at_speed = true;
    state
}

// Whether the motor slows until halted.
pub fn slows(phase: Phase) -> bool
    ensures { result ≡ slows_of phase }
{
    matches!(phase, Phase::Slowing | Phase::EmergencySlowing)
}

// Whether halted is expected: in both slowings.
pub fn takes_halted(state: State) -> bool
    ensures { result ≡ takes_halted state }
{
    slows(state.running.phase)
}

// The motor stands after slowing: a zero search goes back until PX is off, and every other run goes
// on. After an emergency slowing the program ends; of a 05 nothing is left to resume.
#[tactic(auto, unfolding(laws::specs::Tests::choose, machine::specs::Reports::halted_slowing, machine::specs::Reports::halted_emergency, machine::specs::Reports::halted_in))]
pub fn halted(motion: Motion, state: State, next: CellAddress) -> State
    ensures { result ≡ halted_in state.running.phase motion state next }
{
    match (state.running.phase, motion) {
        (Phase::Slowing, Motion::SearchRun) if state.inputs[State::PX] => {
            entered(state, Phase::BackOff, Remaining::Nothing)
        }
        (Phase::Slowing, _) => advanced(state, next),
        (Phase::EmergencySlowing, Motion::DelayedStopRun) => abandoned(state),
        (Phase::EmergencySlowing, _) => interrupted(state),
        _ => state,
    }
}

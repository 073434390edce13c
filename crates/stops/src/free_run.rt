// The free run stop.
ghost use Rattle.std.specs.Prelude.{◌≡◌, true};
ghost use Rattle.machine.specs.Stopping.{braking_count, braking_steps, free_run_stop_in};
ghost use Rattle.instruction.specs.Soundness.{steps_within};

use instruction::run::{Motion, Profile};
use machine::{Phase, Remaining, State};
use progress::{advanced, in_phase};
use units::{CellAddress, Steps};

// How many steps a 05 goes on after its stop: its own times m, or 1 for 0.
fn braking_count(steps: Steps, x4: bool) -> i64
    ensures { result ≡ braking_count steps x4 }
{
    if steps.is_zero() { 1 } else { steps.scaled(x4) }
}

// The same along the direction of the run.
pub fn braking_steps(profile: Profile) -> Steps
    requires { steps_within profile.steps ≡ true }
    ensures { result ≡ braking_steps profile }
{
    let n = braking_count(profile.steps, profile.x4);
    if profile.backward {
        units::steps_of(-n)
    } else {
        units::steps_of(n)
    }
}

// The free run stop: only a run in its first phase takes notice. A free run goes on to the next
// cell, with a ramp after slowing until halted; a 05 brakes, if it has been at speed.
#[tactic(auto, unfolding(laws::specs::Tests::choose, machine::specs::Stopping::free_run_stop_of, machine::specs::Stopping::free_run_stop_in))]
pub fn free_run_stop(state: State, profile: Profile, next: CellAddress) -> State
    requires { steps_within profile.steps ≡ true }
    ensures { result ≡ free_run_stop_in state.running.phase state profile next }
{
    match (state.running.phase, profile.motion) {
        (Phase::Run, Motion::FreeRun) if profile.ramp == 0 => advanced(state, next),
        (Phase::Run, Motion::FreeRun) => in_phase(state, Phase::Slowing, Remaining::Nothing),
        (Phase::Run, Motion::DelayedStopRun) if state.running.at_speed => {
            in_phase(
                state,
                Phase::Braking,
                Remaining::Counted(braking_steps(profile)),
            )
        }
        _ => state,
    }
}

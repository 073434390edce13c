// A step reported by the board.
ghost use Rattle.std.specs.Prelude.{◌≡◌};
ghost use Rattle.machine.specs.Stepping.{remaining_backward, motion_backward, backward_in};
ghost use Rattle.machine.specs.Stepping.{cam_tested, moved_by, arrived_in};
ghost use Rattle.machine.specs.Stepping.{counted as counted_of, step_at};

use instruction::Cell;
use instruction::run::{Motion, Profile};
use machine::{Cam, Phase, Remaining, State};
use progress::{advanced, in_phase};
use stops::emergency::abandoned;
use units::CellAddress;

// Whether what remains leads back.
pub fn remaining_backward(remaining: Remaining) -> bool
    ensures { result ≡ remaining_backward remaining }
{
    match remaining {
        Remaining::Counted(n) => n.is_negative(),
        Remaining::Nothing | Remaining::Timed(_) => false,
    }
}

// An indexed run goes by what remains, every other along its direction.
fn motion_backward(profile: Profile, remaining: Remaining) -> bool
    ensures { result ≡ motion_backward profile.motion profile remaining }
{
    match profile.motion {
        Motion::IndexedRun => remaining_backward(remaining),
        _ => profile.backward,
    }
}

// Whether a run goes back in this phase; backing off goes against its direction.
#[tactic(auto, unfolding(machine::specs::Stepping::backward_in))]
pub fn backward_in(phase: Phase, profile: Profile, remaining: Remaining) -> bool
    ensures { result ≡ backward_in phase profile remaining }
{
    match phase {
        Phase::BackOff => !profile.backward,
        _ => motion_backward(profile, remaining),
    }
}

// A set cam at the position complements O3 and is unset.
#[tactic(auto, unfolding(laws::specs::Tests::both, laws::specs::Tests::choose, machine::specs::Stepping::cam_tested))]
pub fn cam_tested(mut state: State) -> State
    ensures { result ≡ cam_tested state }
{
    if state.cam.set && state.cam.position.0 == state.position.0 {
        state.outputs[State::O3] = !state.outputs[State::O3];
        state.cam = Cam::UNSET;
    }
    state
}

// The position one step on or back, and the cam tested there.
#[tactic(auto, unfolding(machine::specs::Stepping::moved_by))]
pub fn moved_by(backward: bool, mut state: State) -> State
    ensures { result ≡ moved_by backward state }
{
    state.position = state.position.stepped(!backward);
    cam_tested(state)
}

// None remain: the program goes on, or ends if it was slowing for an emergency stop.
#[tactic(auto, unfolding(machine::specs::Stepping::arrived_in))]
pub fn arrived_in(phase: Phase, state: State, next: CellAddress) -> State
    ensures { result ≡ arrived_in phase state next }
{
    match phase {
        Phase::EmergencySlowing => abandoned(state),
        _ => advanced(state, next),
    }
}

// None remain, in the phase that the state is in.
pub fn arrived(state: State, next: CellAddress) -> State
    ensures { result ≡ arrived_in state.running.phase state next }
{
    arrived_in(state.running.phase, state, next)
}

// One less of what remains, if steps are counted.
#[tactic(auto, unfolding(laws::specs::Tests::choose, machine::specs::Stepping::counted))]
pub fn counted(remaining: Remaining, state: State, next: CellAddress) -> State
    ensures { result ≡ counted_of remaining state next }
{
    let Remaining::Counted(n) = remaining else {
        return state;
    };
    let left = n.nearer();
    if left.is_zero() {
        arrived(state, next)
    } else {
        in_phase(state, state.running.phase, Remaining::Counted(left))
    }
}

// A step of the run of the present cell.
#[tactic(auto, unfolding(machine::specs::Stepping::step_at, machine::specs::Stepping::runs_backward))]
pub fn step(state: State, cell: Cell) -> State
    ensures { result ≡ step_at state cell }
{
    let remaining = state.running.remaining;
    let backward = backward_in(state.running.phase, cell.instruction.profile(), remaining);
    counted(remaining, moved_by(backward, state), cell.next)
}

// Taking a cell by value: the change that it makes, or a run begun; and recovery.
ghost use Rattle.std.specs.Prelude.{◌≡◌, true};
ghost use Rattle.laws.specs.Tests.{both};
ghost use Rattle.units.specs.Shift.{is_beyond_of};
ghost use Rattle.instruction.specs.Runs.{profile_of};
ghost use Rattle.instruction.specs.Soundness.{cell_sound, steps_within};
ghost use Rattle.machine.specs.Taking.{allows_x4, lacks_x4, begin_indexed, take_indexed, take_free};
ghost use Rattle.machine.specs.Taking.{take_search, take_motion, take_run, take as take_of};
ghost use Rattle.machine.specs.Taking.{resume as resume_of, restored as restored_of, take_cell};
ghost use Rattle.machine.specs.Taking.{recover as recover_of};
ghost use Rattle.changes.specs.Changes.{is_more, taken_change};

use changes::{changed, is_more, taken_change};
use instruction::run::{Motion, Profile};
use instruction::{Cell, Instruction};
use machine::{Phase, Remaining, Resolution, State, Suspended};
use progress::{advanced, entered, failed, stopped, waiting_at};
use units::{CellAddress, Steps};

fn allows_x4(resolution: Resolution) -> bool
    ensures { result ≡ allows_x4 resolution }
{
    matches!(
        resolution,
        Resolution::D2 | Resolution::D3 | Resolution::B2 | Resolution::B3
    )
}

#[tactic(auto, unfolding(machine::specs::Taking::lacks_x4, laws::specs::Tests::choose))]
fn lacks_x4(state: State, x4: bool) -> bool
    ensures { result ≡ lacks_x4 state x4 }
{
    x4 && !allows_x4(state.presets.resolution)
}

// Only in absolute mode can a run be too long.
#[tactic(auto, unfolding(laws::specs::Tests::both))]
fn too_far(absolute: bool, shift: i64) -> bool
    ensures { result ≡ both absolute (is_beyond_of shift) }
{
    absolute && units::is_beyond(shift)
}

// A run of a counted number of steps; none passes on.
#[tactic(auto, unfolding(machine::specs::Taking::begin_indexed, laws::specs::Tests::choose))]
fn begin_indexed(state: State, shift: Steps, next: CellAddress) -> State
    ensures { result ≡ begin_indexed state shift.0 next }
{
    if shift.is_zero() {
        advanced(state, next)
    } else {
        entered(state, Phase::Run, Remaining::Counted(shift))
    }
}

fn take_indexed(state: State, profile: Profile, next: CellAddress) -> State
    requires { steps_within profile.steps ≡ true }
    ensures { result ≡ take_indexed state profile next }
{
    let absolute = state.presets.absolute;
    let shift = profile.steps.shift(profile.x4, absolute, state.position);
    if too_far(absolute, shift) {
        return failed(state, 50);
    }
    begin_indexed(state, units::steps_of(shift), next)
}

// A run without end is passed over while input ES is on.
#[tactic(auto, unfolding(machine::specs::Taking::take_free, laws::specs::Tests::choose))]
fn take_free(state: State, next: CellAddress) -> State
    ensures { result ≡ take_free state next }
{
    if state.inputs[State::ES] {
        advanced(state, next)
    } else {
        entered(state, Phase::Run, Remaining::Nothing)
    }
}

// Its fast part is skipped while PX is on.
#[tactic(auto, unfolding(machine::specs::Taking::take_search, laws::specs::Tests::choose))]
fn take_search(state: State) -> State
    ensures { result ≡ take_search state }
{
    let first = if state.inputs[State::PX] {
        Phase::BackOff
    } else {
        Phase::Run
    };
    entered(state, first, Remaining::Nothing)
}

#[tactic(auto, unfolding(machine::specs::Taking::take_motion))]
fn take_motion(motion: Motion, state: State, profile: Profile, next: CellAddress) -> State
    requires { steps_within profile.steps ≡ true }
    ensures { result ≡ take_motion motion state profile next }
{
    match motion {
        Motion::NoRun => advanced(state, next),
        Motion::IndexedRun => take_indexed(state, profile, next),
        Motion::FreeRun | Motion::DelayedStopRun => take_free(state, next),
        Motion::SearchRun => take_search(state),
    }
}

#[tactic(auto, unfolding(machine::specs::Taking::take_run, laws::specs::Tests::choose))]
fn take_run(state: State, profile: Profile, next: CellAddress) -> State
    requires { steps_within profile.steps ≡ true }
    ensures { result ≡ take_run state profile next }
{
    if lacks_x4(state, profile.x4) {
        failed(state, 51)
    } else {
        take_motion(profile.motion, state, profile, next)
    }
}

// The run that a cell asks for.
#[tactic(auto, using(machine::proofs::Cells::steps_within_run))]
fn take_run_of(state: State, cell: Cell) -> State
    requires { cell_sound cell ≡ true }
    ensures { result ≡ take_run state (profile_of cell.instruction) cell.next }
{
    take_run(state, cell.instruction.profile(), cell.next)
}

// Takes a cell that changes more: a run begins, and a 69 ends the program, as where its record is
// empty.
#[tactic(auto, unfolding(machine::specs::Taking::take))]
fn take_more(state: State, cell: Cell) -> State
    requires { (cell_sound cell ≡ true) ×
        (is_more (taken_change state cell.instruction cell.next) ≡ true) }
    ensures { result ≡ take_of state cell.instruction cell.next }
{
    match cell.instruction {
        Instruction::Recovery => stopped(state),
        _ => take_run_of(state, cell),
    }
}

// Takes the present cell. A 69 is taken here only as one with an empty record.
fn take(state: State, cell: Cell) -> State
    requires { cell_sound cell ≡ true }
    ensures { result ≡ take_of state cell.instruction cell.next }
{
    let change = taken_change(&state, cell);
    if is_more(change) {
        take_more(state, cell)
    } else {
        changed(state, change)
    }
}

// An indexed run goes on with the steps that remained.
#[tactic(auto, unfolding(machine::specs::Taking::resume, laws::specs::Tests::choose))]
fn resume_run(state: State, cell: Cell, steps: Steps) -> State
    ensures { result ≡ resume_of (Remaining.Counted steps) state cell }
{
    if lacks_x4(state, cell.instruction.profile().x4) {
        failed(state, 51)
    } else {
        entered(state, Phase::Run, Remaining::Counted(steps))
    }
}

#[tactic(auto, unfolding(machine::specs::Taking::resume))]
fn resume(remaining: Remaining, state: State, cell: Cell) -> State
    requires { cell_sound cell ≡ true }
    ensures { result ≡ resume_of remaining state cell }
{
    match remaining {
        Remaining::Nothing => take(state, cell),
        Remaining::Counted(steps) => resume_run(state, cell, steps),
        Remaining::Timed(delay) => entered(state, Phase::Delay, Remaining::Timed(delay)),
    }
}

// At the interrupted record's cell, with its loop count and an empty record.
fn restored(mut state: State) -> State
    ensures { result ≡ restored_of state }
{
    state.running = waiting_at(state.suspended.cell, state.suspended.loops);
    state.suspended = Suspended::EMPTY;
    state
}

// Takes a 69, given the interrupted record's cell.
#[tactic(auto, unfolding(machine::specs::Taking::recover, laws::specs::Tests::choose))]
fn recover(state: State, cell: Cell) -> State
    requires { cell_sound cell ≡ true }
    ensures { result ≡ recover_of state cell }
{
    if state.suspended.cell.0 == 0 {
        stopped(state)
    } else {
        resume(state.suspended.remaining, restored(state), cell)
    }
}

// Takes the present cell, given the interrupted record's cell, where a 69 goes on.
#[tactic(auto, using(machine::proofs::Variants::not_recovery), unfolding(machine::specs::Taking::take_cell, machine::specs::Taking::is_recovery, instruction::specs::Codes::code_of, laws::specs::Tests::choose))]
pub fn take_cell(state: State, cell: Cell, held: Cell) -> State
    requires { (cell_sound cell ≡ true) × (cell_sound held ≡ true) }
    ensures { result ≡ take_cell state cell held }
{
    match cell.instruction {
        Instruction::Recovery => recover(state, held),
        _ => take(state, cell),
    }
}

// What taking a cell and a millisecond change, code by code. A change is carried out in place, and
// by value for a caller that hands a state on. A run that begins and a 69 change more.
#![tactic(auto)]

ghost use Rattle.std.specs.Prelude.{◌<◌, ◌≡◌, true};
ghost use Rattle.laws.specs.Tests.{choose, same};
ghost use Rattle.instruction.specs.Soundness.{cell_sound};
ghost use Rattle.machine.specs.Taking.{level_at};
ghost use Rattle.changes.specs.Changes.{changed_by, closing_loop, delay_change, delay_of, is_more};
ghost use Rattle.changes.specs.Changes.{next_change, place_in, running_after, taken_change};
ghost use Rattle.changes.specs.Changes.{time_delay};

use instruction::{Cell, Instruction};
use machine::{Cam, Fault, Phase, Remaining, Running, State};
use progress::{at_rest, passed};
use units::{CellAddress, Milliseconds, Position};

// What changes of a state.
#[derive(Clone, Copy)]
pub enum Change {
    // Nothing, while a run is under way.
    Nothing,
    // On to a cell, with a loop count.
    Advance(CellAddress, u16),
    // On to a cell, and an output by its place and its level, the cam or the position.
    Output(CellAddress, u8, bool),
    Cam(CellAddress, Cam),
    Position(CellAddress, Position),
    // at_speed, and so much of a delay remains.
    Delay(bool, Milliseconds),
    // An error ends the program.
    Fault(u8),
    // More than one part: a run, or a 69.
    More,
}

pub fn is_more(change: Change) -> bool
    ensures { result ≡ is_more change }
{
    matches!(change, Change::More)
}

// The running part in a delay of which so much remains.
pub fn delaying(running: Running, at_speed: bool, delay: Milliseconds) -> Running
    ensures { result ≡ delay_of running at_speed delay }
{
    Running {
        phase: Phase::Delay,
        remaining: Remaining::Timed(delay),
        at_speed,
        ..running
    }
}

// The running part after a change.
pub fn running_after(change: Change, running: Running) -> Running
    ensures { result ≡ running_after change running }
{
    match change {
        // By its fields: copied whole, the bytes between them would be carried through each turn
        // of a wait.
        Change::Nothing | Change::More => Running { ..running },
        Change::Advance(next, loops) => passed(next, loops),
        Change::Output(next, _, _) | Change::Cam(next, _) | Change::Position(next, _) => {
            passed(next, running.loops)
        }
        Change::Delay(at_speed, delay) => delaying(running, at_speed, delay),
        Change::Fault(_) => at_rest(),
    }
}

// Carries a change out in place. One of more is left to the caller.
#[inline(always)]
pub fn carry_out(state: &mut State, change: Change)
    requires { place_in change < 14 }
    ensures { state.new ≡ changed_by change state.old }
{
    let cell = state.running.cell;
    state.running = running_after(change, state.running);
    match change {
        Change::Output(_, place, on) => state.outputs[place as usize] = on,
        Change::Cam(_, cam) => state.cam = cam,
        Change::Position(_, position) => state.position = position,
        Change::Fault(code) => state.fault = Fault { code, cell },
        _ => {}
    }
}

// The same by value.
pub fn changed(mut state: State, change: Change) -> State
    requires { place_in change < 14 }
    ensures { result ≡ changed_by change state }
{
    carry_out(&mut state, change);
    state
}

// A 62: error 52 at count 0; else one less, then the next cell at 0, the jump otherwise.
#[tactic(auto, unfolding(crate::specs::Changes::closing_loop, laws::specs::Tests::choose))]
fn closing_loop(loops: u16, jump: CellAddress, next: CellAddress) -> Change
    ensures { result ≡ closing_loop loops jump next }
{
    match loops {
        0 => Change::Fault(52),
        1 => Change::Advance(next, 0),
        _ => Change::Advance(jump, loops - 1),
    }
}

// The level of an input or a flag that a 63 names.
#[tactic(auto, unfolding(machine::specs::Taking::level_at, laws::specs::Tests::choose))]
fn condition_at(state: &State, place: u8) -> bool
    requires { place < 16 }
    ensures { result ≡ level_at state.now.inputs state.now.outputs place }
{
    let k = place as usize;
    if k < 8 {
        state.inputs[k]
    } else {
        state.outputs[State::F0 + (k - 8)]
    }
}

// Where a 63 goes: to the jump where the level is the one that it asks for.
#[tactic(auto, unfolding(laws::specs::Tests::choose, laws::specs::Tests::same))]
fn jump_or_next(level: bool, on: bool, jump: CellAddress, next: CellAddress) -> CellAddress
    ensures { result ≡ choose (same level on) jump next }
{
    if level == on { jump } else { next }
}

// A 65: its delay begins; one of 0 is passed.
#[tactic(auto, unfolding(crate::specs::Changes::time_delay, laws::specs::Tests::choose))]
fn time_delay(delay: Milliseconds, loops: u16, next: CellAddress) -> Change
    ensures { result ≡ time_delay delay loops next }
{
    if delay.0 == 0 {
        Change::Advance(next, loops)
    } else {
        Change::Delay(false, delay)
    }
}

// What taking a cell changes of a state, whatever its phase. The state is lent: handed on by value,
// it would be copied to look one level up.
#[tactic(auto, using(crate::proofs::Cells::condition_place), unfolding(crate::specs::Changes::change_of))]
pub fn taken_change(state: &State, cell: Cell) -> Change
    requires { cell_sound cell ≡ true }
    ensures { result ≡ taken_change state.now cell.instruction cell.next }
{
    let loops = state.running.loops;
    let next = cell.next;
    match cell.instruction {
        Instruction::Null => Change::Advance(next, loops),
        Instruction::CamSetting { set, position } => Change::Cam(next, Cam { set, position }),
        Instruction::OutputSetting { output, on } => Change::Output(next, output.0, on),
        Instruction::CounterReset => Change::Position(next, Position(0)),
        Instruction::OpeningLoop { count } => Change::Advance(next, count),
        Instruction::ClosingLoop { jump } => closing_loop(loops, jump, next),
        Instruction::ConditionalJump {
            condition,
            on,
            jump,
        } => {
            let level = condition_at(state, condition.0);
            Change::Advance(jump_or_next(level, on, jump, next), loops)
        }
        Instruction::TimeDelay { delay } => time_delay(delay, loops, next),
        Instruction::CurrentSetting { on } => Change::Output(next, State::CU as u8, on),
        _ => Change::More,
    }
}

// A millisecond of a delay: one less remains, and after the last the program goes on.
#[tactic(auto, unfolding(crate::specs::Changes::delay_change, laws::specs::Tests::choose))]
fn delay_change(running: Running, next: CellAddress) -> Change
    ensures { result ≡ delay_change running.remaining running.at_speed running.loops next }
{
    match running.remaining {
        Remaining::Timed(delay) if delay.0 <= 1 => Change::Advance(next, running.loops),
        Remaining::Timed(delay) => Change::Delay(running.at_speed, Milliseconds(delay.0 - 1)),
        Remaining::Nothing | Remaining::Counted(_) => Change::Nothing,
    }
}

// What the next millisecond of a busy drive changes.
#[inline(always)]
#[tactic(auto, unfolding(crate::specs::Changes::change_in))]
pub fn next_change(state: &State, cell: Cell) -> Change
    requires { cell_sound cell ≡ true }
    ensures { result ≡ next_change state.now cell }
{
    match state.running.phase {
        Phase::Waiting => taken_change(state, cell),
        Phase::Delay => delay_change(state.running, cell.next),
        _ => Change::Nothing,
    }
}

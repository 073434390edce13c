// Steps of one run, many in one call: until so many are given, or one of them ends the run, leads to
// another cell or changes an output.
#![tactic(auto)]

ghost use Rattle.std.specs.Prelude.{◌≡◌, true, List};
ghost use Rattle.instruction.specs.declared.Cell.{Cell as CellOf};
ghost use Rattle.machine.specs.Record.{moving as moving_of};
ghost use Rattle.machine.specs.Milliseconds.{present};
ghost use Rattle.machine.specs.Invariant.{Kept};
ghost use Rattle.travel.specs.Travel.{Travels};
ghost use Rattle.travel.specs.Plain.{meets as meets_of, is_last, lessened as lessened_of};
ghost use Rattle.travel.specs.Plain.{placed as placed_of};

use instruction::Cell;
use machine::{Cam, Remaining, State};
use motion::stepping::{backward_in, step};
use progress::{in_phase, moving};
use units::Position;

pub mod theorems;

// How many steps were given, and the state after them.
#[derive(Clone, Copy)]
pub struct Travelled {
    pub given: u32,
    pub state: State,
}

// Whether a step to a position meets the cam.
#[tactic(auto, unfolding(crate::specs::Plain::meets, laws::specs::Tests::both))]
fn meets(cam: Cam, position: Position) -> bool
    ensures { result ≡ meets_of cam position }
{
    cam.set & (position.0 == cam.position.0)
}

// Whether one step remains.
#[tactic(auto, unfolding(crate::specs::Plain::is_last))]
fn is_last(remaining: Remaining) -> bool
    ensures { result ≡ is_last remaining }
{
    match remaining {
        Remaining::Nothing => false,
        Remaining::Counted(n) => n.nearer().is_zero(),
        Remaining::Timed(_) => false,
    }
}

// One step less of what remains, if steps are counted.
#[tactic(auto, unfolding(crate::specs::Plain::lessened))]
fn lessened(remaining: Remaining) -> Remaining
    ensures { result ≡ lessened_of remaining }
{
    match remaining {
        Remaining::Nothing => Remaining::Nothing,
        Remaining::Counted(n) => {
            let left = n.nearer();
            Remaining::Counted(left)
        }
        Remaining::Timed(n) => Remaining::Timed(n),
    }
}

// The state with another position and another rest.
#[tactic(auto, unfolding(crate::specs::Plain::placed))]
fn placed(mut state: State, position: Position, remaining: Remaining) -> State
    ensures { result ≡ placed_of state position remaining }
{
    let phase = state.running.phase;
    state.position = position;
    in_phase(state, phase, remaining)
}

// Gives the steps of a run under way. A step that only moves changes position and rest alone; the
// first that does more is the last that is given.
fn run_on(state: State, cell: Cell, limit: u32) -> Travelled
    requires { moving_of state ≡ true }
    ensures { (cells : List CellOf) → Kept (record { state = state; cells = cells }) →
        present cells state ≡ cell → Travels limit (record { state = state; cells = cells }) result }
{
    let profile = cell.instruction.profile();
    let mut position = state.position;
    let mut remaining = state.running.remaining;
    for n in 0..limit {
        let backward = backward_in(state.running.phase, profile, remaining);
        let to = position.stepped(!backward);
        if meets(state.cam, to) | is_last(remaining) {
            let here = placed(state, position, remaining);
            return Travelled {
                given: n + 1,
                state: step(here, cell),
            };
        }
        remaining = lessened(remaining);
        position = to;
    }
    Travelled {
        given: limit,
        state: placed(state, position, remaining),
    }
}

// Gives steps while a run is under way, at most so many, given the present cell.
pub fn travel(state: State, cell: Cell, limit: u32) -> Travelled
    ensures { (cells : List CellOf) → Kept (record { state = state; cells = cells }) →
        present cells state ≡ cell → Travels limit (record { state = state; cells = cells }) result }
{
    if !moving(state) {
        return Travelled { given: 0, state };
    }
    run_on(state, cell, limit)
}

// Waiting: milliseconds until the drive is idle, moving or the budget is spent. Only a wait takes
// the whole memory, once.
#![tactic(auto)]

ghost use Rattle.std.specs.Prelude.{◌-◌, ◌≤◌, min, ◌≡◌, true, eqb};
ghost use Rattle.laws.specs.Tests.{either};
ghost use Rattle.machine.specs.Soundness.{sound};
ghost use Rattle.machine.specs.Waiting.{end_at, settled, wait as wait_of};
ghost use Rattle.changes.specs.Changes.{delay_of};
ghost use Rattle.waits.specs.Waiting.{delay_remaining, ran_of};

use changes::{carry_out, delaying, is_more, next_change};
use execution::milliseconds::millisecond;
use instruction::Cell;
use machine::answers::End;
use machine::{Remaining, Running, State};
use progress::{idle, moving};
use units::Milliseconds;

// Which end, how many milliseconds were given, and the state after that many.
#[derive(Clone, Copy)]
pub struct Ran {
    pub end: End,
    pub given: Milliseconds,
    pub state: State,
}

// Gives milliseconds until the drive is idle, moving or the budget is spent, judged in that order
// before each. A delay is counted down at once as far as it is sure to last; what a millisecond
// changes is changed in place. The drive is sound.
pub fn wait(cells: [Cell; 131], state: State, budget: Milliseconds) -> Ran
    requires { sound (record { state = state; cells = cells }) ≡ true }
    ensures { result ≡ ran_of (wait_of budget.0 cells state) }
{
    let limit = budget.0;
    let mut d = state;
    let mut n: u32 = 0;
    // No `for`: a delay takes many milliseconds in a turn.
    loop {
        let left = limit - n;
        if is_over(d, left) {
            return ended(n, d);
        }
        let given = lasting(d.running, left);
        if given > 0 {
            d.running = counted_down(d.running, given);
            n += given;
            continue;
        }
        let cell = cells[d.running.cell.place()];
        let change = next_change(&d, cell);
        n += 1;
        if is_more(change) {
            let held = cells[d.suspended.cell.place()];
            d = millisecond(d, cell, held);
        } else {
            carry_out(&mut d, change);
        }
    }
}

// Idle, moving, or nothing left of the budget.
#[tactic(auto, unfolding(laws::specs::Tests::either, machine::specs::Waiting::settled))]
fn is_over(state: State, left: u32) -> bool
    ensures { result ≡ either (settled state) (eqb left 0) }
{
    idle(state) || moving(state) || left == 0
}

// What a wait that ends here hands back.
fn ended(given: u32, state: State) -> Ran
    ensures { result ≡
        record { end = end_at state; given = record { 0 = given }; state = state } }
{
    Ran {
        end: end_at(state),
        given: Milliseconds(given),
        state,
    }
}

#[tactic(auto, unfolding(laws::specs::Tests::choose, machine::specs::Waiting::end_at))]
fn end_at(state: State) -> End
    ensures { result ≡ end_at state }
{
    if idle(state) {
        End::Idle
    } else if moving(state) {
        End::Moving
    } else {
        End::Spent
    }
}

// How many milliseconds of a delay remain.
fn delay_remaining(running: Running) -> u32
    ensures { result ≡ delay_remaining running.remaining }
{
    match running.remaining {
        Remaining::Nothing | Remaining::Counted(_) => 0,
        Remaining::Timed(delay) => delay.0,
    }
}

// How many milliseconds of a delay come before its last, at most so many.
fn lasting(running: Running, left: u32) -> u32
    ensures { result ≡ min (delay_remaining running.remaining - 1) left }
{
    delay_remaining(running).saturating_sub(1).min(left)
}

// The running part after so many milliseconds of a delay.
fn counted_down(running: Running, given: u32) -> Running
    requires { given ≤ delay_remaining running.remaining }
    ensures { result ≡ delay_of running running.at_speed
        (record { 0 = delay_remaining running.remaining - given }) }
{
    let delay = delay_remaining(running);
    delaying(running, running.at_speed, Milliseconds(delay - given))
}

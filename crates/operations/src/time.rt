// Time: a millisecond, a wait.
ghost use Rattle.std.specs.Prelude.{◌≡◌, true, leb};
ghost use Rattle.laws.specs.Tests.{both};
ghost use Rattle.machine.specs.Soundness.{sound};
ghost use Rattle.machine.specs.Milliseconds.{millisecond as millisecond_of};
ghost use Rattle.machine.specs.Calls.{act};
ghost use Rattle.machine.specs.Calls.Call.{Wait};
ghost use Rattle.operations.specs.Results.{shown_during, waited_as};

use crate::results::{Ending, Refusal};
use machine::{Machine, State};
use units::Milliseconds;

// Whether a wait may have the budget.
#[tactic(auto, unfolding(laws::specs::Tests::both))]
fn within(budget: Milliseconds) -> bool
    ensures { result ≡ both (leb 1 budget.0) (leb budget.0 1000000) }
{
    (1..=1_000_000).contains(&budget.0)
}

// One millisecond, at the present cell and the interrupted record's; an empty record has none, and
// the first cell serves.
pub fn millisecond(machine: &Machine) -> State
    requires { sound machine.now ≡ true }
    ensures { result ≡ millisecond_of machine.now.cells machine.now.state }
{
    let at = machine.state.running.cell;
    let held_at = machine.state.suspended.cell;
    let cell = machine.cells[at.place()];
    let held = machine.cells[held_at.place()];
    execution::milliseconds::millisecond(machine.state, cell, held)
}

// Milliseconds until the drive is idle, moving or the budget is spent.
pub fn wait(machine: &mut Machine, budget: Milliseconds) -> Result<Ending, Refusal>
    requires { sound machine.old ≡ true }
    ensures { waited_as result machine.new (shown_during budget.0 machine.old) ≡ act (Wait budget.0) machine.old }
{
    if !within(budget) {
        return Err(Refusal::BudgetOutOfRange);
    }
    let ran = waits::wait(machine.cells, machine.state, budget);
    machine.state = ran.state;
    Ok(Ending {
        end: ran.end,
        given: ran.given,
    })
}

// From the board: a step, at-speed, halted; and the order to it.
ghost use Rattle.std.specs.Prelude.{◌≡◌, true};
ghost use Rattle.machine.specs.Soundness.{sound};
ghost use Rattle.machine.specs.Orders.{order_of};
ghost use Rattle.machine.specs.Calls.{act};
ghost use Rattle.machine.specs.Calls.Call.{Step, AtSpeed, Halted};
ghost use Rattle.operations.specs.Results.{acted_on};

use crate::events;
use crate::parts::present_cell;
use crate::results::Refusal;
use machine::answers::BoardOrder;
use machine::{Machine, State};
use motion::orders::board_order;

// A step.
pub fn step(machine: &Machine) -> Result<State, Refusal>
    requires { sound machine.now ≡ true }
    ensures { acted_on machine.now result ≡ act Step machine.now }
{
    events::step(machine.state, present_cell(machine))
}

// The run has reached its speed.
pub fn at_speed(machine: &Machine) -> Result<State, Refusal>
    requires { sound machine.now ≡ true }
    ensures { acted_on machine.now result ≡ act AtSpeed machine.now }
{
    events::at_speed(machine.state, present_cell(machine))
}

// The motor stands after slowing.
pub fn halted(machine: &Machine) -> Result<State, Refusal>
    requires { sound machine.now ≡ true }
    ensures { acted_on machine.now result ≡ act Halted machine.now }
{
    events::halted(machine.state, present_cell(machine))
}

// The order to the board.
pub fn order(machine: &Machine) -> BoardOrder
    requires { sound machine.now ≡ true }
    ensures { result ≡ order_of machine.now.cells machine.now.state }
{
    board_order(machine.state, present_cell(machine))
}

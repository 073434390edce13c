// The order to the board.
ghost use Rattle.std.specs.Prelude.{◌≡◌, true};
ghost use Rattle.machine.specs.Orders.{signals_of, remaining_steps, multiplied as multiplied_of};
ghost use Rattle.machine.specs.Orders.{run_order, order_in, order_at};
ghost use Rattle.instruction.specs.Soundness.{cell_sound};
ghost use Rattle.machine.specs.declared.Phase.TheVariants.{BackOff};
ghost use Rattle.motion.specs.Bounds.{WithinHertz};

use crate::stepping::backward_in;
use instruction::Cell;
use instruction::run::Profile;
use machine::answers::{BoardOrder, BoardSignals};
use machine::{Phase, Remaining, State};
use units::Steps;

// IN, CU and FC, which every order has.
pub fn signals(state: State) -> BoardSignals
    ensures { result ≡ signals_of state }
{
    BoardSignals {
        current: state.presets.current,
        powered: state.outputs[State::CU],
        fc: state.outputs[State::FC],
    }
}

// The steps that remain, 0 where none are counted.
#[tactic(auto, unfolding(machine::specs::Orders::remaining_steps))]
pub fn remaining_steps(remaining: Remaining) -> Steps
    ensures { result ≡ remaining_steps remaining }
{
    match remaining {
        Remaining::Counted(n) => n,
        Remaining::Nothing | Remaining::Timed(_) => Steps(0),
    }
}

// Hz times m.
#[tactic(auto, unfolding(laws::specs::Tests::choose, machine::specs::Orders::multiplied))]
pub fn multiplied(hertz: u32, x4: bool) -> u32
    requires { WithinHertz hertz }
    ensures { result ≡ multiplied_of hertz x4 }
{
    if x4 { hertz * 4 } else { hertz }
}

#[tactic(auto, unfolding(machine::specs::Orders::run_order))]
fn run_order(phase: Phase, state: State, profile: Profile) -> BoardOrder
    requires { WithinHertz profile.hertz }
    ensures { result ≡ run_order phase state profile }
{
    let remaining = state.running.remaining;
    BoardOrder::Run {
        signals: signals(state),
        backward: backward_in(phase, profile, remaining),
        hertz: multiplied(profile.hertz, profile.x4),
        ramp: profile.ramp,
        remaining: remaining_steps(remaining),
    }
}

#[tactic(auto, unfolding(machine::specs::Orders::order_in))]
fn backing_off(state: State, profile: Profile) -> BoardOrder
    ensures { result ≡ order_in BackOff state profile }
{
    BoardOrder::Run {
        signals: signals(state),
        backward: !profile.backward,
        hertz: profile.slow,
        ramp: 0,
        remaining: Steps(0),
    }
}

// The order, given the present cell.
#[tactic(auto, using(crate::proofs::Cells::hertz_within), unfolding(machine::specs::Orders::order_at))]
pub fn board_order(state: State, cell: Cell) -> BoardOrder
    requires { cell_sound cell ≡ true }
    ensures { result ≡ order_at state cell }
{
    order(state, cell.instruction.profile())
}

// The order: stand outside a run, slow in both slowings, else the run.
#[tactic(auto, unfolding(machine::specs::Orders::order_in))]
pub fn order(state: State, profile: Profile) -> BoardOrder
    requires { WithinHertz profile.hertz }
    ensures { result ≡ order_in state.running.phase state profile }
{
    let phase = state.running.phase;
    match phase {
        Phase::Waiting | Phase::Delay => BoardOrder::Stand(signals(state)),
        Phase::Run | Phase::Braking => run_order(phase, state, profile),
        Phase::Slowing | Phase::EmergencySlowing => BoardOrder::Slow(signals(state)),
        Phase::BackOff => backing_off(state, profile),
    }
}

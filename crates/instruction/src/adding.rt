// What an instruction adds to the totals of a program: 02, Slip 2.
ghost use Rattle.std.specs.Prelude.{◌≡◌, pos, Some};
ghost use Rattle.instruction.specs.Adding.{net_of, waits, sums, added_of};

use crate::Instruction;
use units::{Milliseconds, NetSteps, Steps};

// Net steps and milliseconds of delays: of an instruction, or of a program.
#[derive(Clone, Copy, PartialEq, Eq)]
pub struct Sums {
    pub steps: NetSteps,
    pub delay: Milliseconds,
}

#[tactic(auto, unfolding(crate::specs::Adding::net_of))]
fn run(steps: Steps, x4: bool) -> Option<Sums>
    ensures { result ≡ Some (sums (net_of steps x4) (waits 0)) }
{
    Some(Sums {
        steps: NetSteps(steps.scaled(x4)),
        delay: Milliseconds(0),
    })
}

fn pause(delay: Milliseconds) -> Option<Sums>
    ensures { result ≡ Some (sums (record { 0 = pos 0 }) delay) }
{
    Some(Sums {
        steps: NetSteps(0),
        delay,
    })
}

impl Instruction {
    // The steps of a run and the milliseconds of a delay; nothing where no totals are given of its
    // code.
    #[tactic(auto, unfolding(crate::specs::Adding::added_of, crate::specs::Adding::is_one_of, crate::specs::Adding::net_of, crate::specs::Adding::delay_of, units::specs::Shift::scaled_of, units::specs::Shift::multiplier_of, crate::specs::Codes::code_of, crate::specs::Numbers::numbers_with, crate::specs::Runs::profile_of, laws::specs::Tests::choose, laws::specs::Tests::either))]
    pub fn adds(self) -> Option<Sums>
        ensures { result ≡ added_of self }
    {
        match self {
            Instruction::IndexedRamp { x4, steps, .. }
            | Instruction::IndexedRampFine { x4, steps, .. }
            | Instruction::Indexed { x4, steps, .. }
            | Instruction::IndexedFine { x4, steps, .. } => run(steps, x4),
            Instruction::TimeDelay { delay } => pause(delay),
            Instruction::CurrentSetting { .. } => pause(Milliseconds(0)),
            Instruction::Null
            | Instruction::CamSetting { .. }
            | Instruction::OutputSetting { .. }
            | Instruction::CounterReset => pause(Milliseconds(0)),
            Instruction::FreeRamp { .. }
            | Instruction::FreeRampFine { .. }
            | Instruction::Free { .. }
            | Instruction::FreeFine { .. }
            | Instruction::ZeroSearch { .. }
            | Instruction::DelayedStop { .. }
            | Instruction::OpeningLoop { .. }
            | Instruction::ClosingLoop { .. }
            | Instruction::ConditionalJump { .. }
            | Instruction::Recovery => None,
        }
    }
}

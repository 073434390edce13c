// The tests of the interrupted record.
ghost use Rattle.std.specs.Prelude.{◌≡◌, List};
ghost use Rattle.instruction.specs.Runs.{profile_of};
ghost use Rattle.instruction.specs.declared.Cell.{Cell};
ghost use Rattle.machine.specs.Soundness.{is_indexed, is_delay, suspended_remaining};
ghost use Rattle.machine.specs.Soundness.{suspended_sound};
ghost use Rattle.soundness.specs.Places.{Holds};

use crate::ranges::is_cell;
use crate::remaining::{is_nothing, steps_remaining, time_remaining};
use instruction::Instruction;
use instruction::run::Motion;
use machine::{Remaining, Suspended};

#[tactic(auto, unfolding(machine::specs::Soundness::is_indexed))]
fn is_indexed(instruction: Instruction) -> bool
    ensures { result ≡ is_indexed (profile_of instruction).motion }
{
    matches!(instruction.profile().motion, Motion::IndexedRun)
}

#[tactic(auto, using(machine::proofs::Variants::not_delay), unfolding(machine::specs::Soundness::is_delay, instruction::specs::Codes::code_of))]
pub fn is_delay(instruction: Instruction) -> bool
    ensures { result ≡ is_delay instruction }
{
    matches!(instruction, Instruction::TimeDelay { .. })
}

// What remains in the record: steps of an indexed run, milliseconds of a 65.
#[tactic(auto, unfolding(machine::specs::Soundness::suspended_remaining, laws::specs::Tests::both))]
fn suspended_remaining(remaining: Remaining, instruction: Instruction) -> bool
    ensures { result ≡ suspended_remaining remaining instruction }
{
    match remaining {
        Remaining::Nothing => true,
        Remaining::Counted(n) => is_indexed(instruction) & steps_remaining(n),
        Remaining::Timed(n) => is_delay(instruction) & time_remaining(n),
    }
}

// An empty record is three zeros. A loop count of 16 bits is never above 65,535.
pub fn suspended_sound(suspended: Suspended, instruction: Instruction) -> bool
    ensures { (cells : List Cell) → Holds cells suspended.cell instruction →
        result ≡ suspended_sound cells suspended }
{
    if suspended.cell.0 == 0 {
        is_nothing(suspended.remaining) & (suspended.loops == 0)
    } else {
        is_cell(suspended.cell) & suspended_remaining(suspended.remaining, instruction)
    }
}

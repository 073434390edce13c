// The tests of a program under way: its phase, what remains in it, and the at-speed mark.
ghost use Rattle.std.specs.Prelude.{◌≡◌, List};
ghost use Rattle.instruction.specs.declared.Cell.{Cell};
ghost use Rattle.machine.specs.Soundness.{is_waiting, emergency_remaining, resting_sound};
ghost use Rattle.machine.specs.Soundness.{busy_sound, running_sound};
ghost use Rattle.soundness.specs.Phases.{phase_sound};
ghost use Rattle.soundness.specs.Places.{Holds};

use crate::ranges::is_cell;
use crate::remaining::{is_nothing, is_steps, is_steps_along, is_time};
use crate::suspended::is_delay;
use instruction::Instruction;
use instruction::run::{Motion, Profile};
use machine::{Phase, Remaining, Running};

fn is_waiting(phase: Phase) -> bool
    ensures { result ≡ is_waiting phase }
{
    matches!(phase, Phase::Waiting)
}

// Idle, all five are zero.
#[tactic(auto, unfolding(machine::specs::Soundness::resting_sound, laws::specs::Tests::both))]
fn resting_sound(running: Running) -> bool
    ensures { result ≡ resting_sound running }
{
    is_waiting(running.phase)
        & is_nothing(running.remaining)
        & (running.loops == 0)
        & !running.at_speed
}

// What remains in an emergency slowing: the steps of an indexed run, those of a 05 if it brakes.
#[tactic(auto, unfolding(machine::specs::Soundness::emergency_remaining, laws::specs::Tests::either))]
fn emergency_remaining(profile: Profile, remaining: Remaining) -> bool
    ensures { result ≡ emergency_remaining profile.motion profile remaining }
{
    match profile.motion {
        Motion::NoRun | Motion::FreeRun | Motion::SearchRun => is_nothing(remaining),
        Motion::IndexedRun => is_steps(remaining),
        Motion::DelayedStopRun => {
            is_nothing(remaining) | is_steps_along(profile.backward, remaining)
        }
    }
}

// Whether the phase is one of the cell's, with what remains in it and the mark: only an indexed run
// counts its steps, a 05 has steps to go along its direction after its stop, only a zero search
// backs off, and only a run with a ramp comes to speed and slows. The mark may be either in both
// slowings.
#[tactic(auto, unfolding(crate::specs::Phases::phase_sound, machine::specs::Soundness::has_phase, machine::specs::Soundness::busy_remaining, machine::specs::Soundness::at_speed_sound, machine::specs::Soundness::has_ramp, machine::specs::Soundness::is_indexed, machine::specs::Soundness::run_phase, machine::specs::Soundness::braking_phase, machine::specs::Soundness::slowing_phase, machine::specs::Soundness::back_phase, laws::specs::Tests::both, laws::specs::Tests::either, laws::specs::Tests::choose))]
fn phase_sound(running: Running, instruction: Instruction) -> bool
    ensures { result ≡
        phase_sound running.phase instruction running.remaining running.at_speed }
{
    let remaining = running.remaining;
    let at_speed = running.at_speed;
    let profile = instruction.profile();
    let ramp = profile.ramp != 0;
    match (running.phase, profile.motion) {
        (Phase::Waiting, _) => is_nothing(remaining) & !at_speed,
        (Phase::Delay, _) => is_delay(instruction) & is_time(remaining) & !at_speed,
        (Phase::Run, Motion::IndexedRun) => is_steps(remaining) & (ramp | !at_speed),
        (Phase::Run, Motion::FreeRun | Motion::SearchRun | Motion::DelayedStopRun) => {
            is_nothing(remaining) & (ramp | !at_speed)
        }
        (Phase::Braking, Motion::DelayedStopRun) => {
            is_steps_along(profile.backward, remaining) & at_speed
        }
        (Phase::Slowing, Motion::FreeRun) => ramp & is_nothing(remaining),
        (Phase::Slowing, Motion::SearchRun) => is_nothing(remaining),
        (Phase::EmergencySlowing, _) => ramp & emergency_remaining(profile, remaining),
        (Phase::BackOff, Motion::SearchRun) => is_nothing(remaining) & !at_speed,
        _ => false,
    }
}

// The present cell is one, and the phase is sound. A loop count of 16 bits is never above 65,535.
#[tactic(auto, using(crate::proofs::Comparisons::loops_pass), unfolding(machine::specs::Soundness::busy_sound, crate::specs::Phases::phase_sound, laws::specs::Tests::both))]
fn busy_sound(running: Running, instruction: Instruction) -> bool
    ensures { result ≡ busy_sound running instruction }
{
    is_cell(running.cell) & phase_sound(running, instruction)
}

pub fn running_sound(running: Running, instruction: Instruction) -> bool
    ensures { (cells : List Cell) → Holds cells running.cell instruction →
        result ≡ running_sound cells running }
{
    if running.cell.0 == 0 {
        resting_sound(running)
    } else {
        busy_sound(running, instruction)
    }
}

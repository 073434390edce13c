// What a run needs of an instruction.
ghost use Rattle.std.specs.Prelude.{◌≡◌, ◌*◌};
ghost use Rattle.frequency.specs.Places.{hertz_of};
ghost use Rattle.instruction.specs.Runs.{profile_of, indexed_run, free_run, search_run, stopped_run};

use crate::{Instruction, Travel};
use frequency::Frequency;
use units::Steps;

// How an instruction moves the motor.
#[derive(Clone, Copy)]
pub enum Motion {
    // Not at all.
    NoRun,
    // A counted number of steps: 01, 31, 11, 21.
    IndexedRun,
    // Until a free run stop: 02, 32, 12, 22.
    FreeRun,
    // The zero search: 03.
    SearchRun,
    // Until a free run stop, then a counted number of steps: 05.
    DelayedStopRun,
}

#[derive(Clone, Copy)]
pub struct Profile {
    pub motion: Motion,
    // Hz before the multiplier.
    pub hertz: u32,
    // The ramp code; 0 for a run without ramp.
    pub ramp: u8,
    pub x4: bool,
    // The direction s of a run that is not indexed.
    pub backward: bool,
    pub steps: Steps,
    // Hz of the slow part of a zero search.
    pub slow: u32,
}

// No run.
const STILL: Profile = Profile {
    motion: Motion::NoRun,
    hertz: 0,
    ramp: 0,
    x4: false,
    backward: false,
    steps: Steps(0),
    slow: 0,
};

fn indexed(hertz: u32, ramp: u8, x4: bool, steps: Steps) -> Profile
    ensures { result ≡ indexed_run hertz ramp x4 steps }
{
    Profile {
        motion: Motion::IndexedRun,
        hertz,
        ramp,
        x4,
        steps,
        ..STILL
    }
}

fn free(hertz: u32, ramp: u8, backward: bool, x4: bool) -> Profile
    ensures { result ≡ free_run hertz ramp backward x4 }
{
    Profile {
        motion: Motion::FreeRun,
        hertz,
        ramp,
        x4,
        backward,
        ..STILL
    }
}

fn search(hertz: u32, ramp: u8, backward: bool, slow: u32) -> Profile
    ensures { result ≡ search_run hertz ramp backward slow }
{
    Profile {
        motion: Motion::SearchRun,
        hertz,
        ramp,
        backward,
        slow,
        ..STILL
    }
}

fn stopped(hertz: u32, ramp: u8, travel: Travel, steps: Steps) -> Profile
    ensures { result ≡ stopped_run hertz ramp travel steps }
{
    Profile {
        motion: Motion::DelayedStopRun,
        hertz,
        ramp,
        x4: travel.x4(),
        backward: travel.backward(),
        steps,
        ..STILL
    }
}

fn thousands(f: u8) -> u32
    ensures { result ≡ f * 1000 }
{
    u32::from(f) * 1000
}

fn hundreds(f: u8) -> u32
    ensures { result ≡ f * 100 }
{
    u32::from(f) * 100
}

fn hertz(f: Frequency) -> u32
    ensures { result ≡ hertz_of f }
{
    u32::from(f.hertz())
}

impl Instruction {
    #[tactic(auto, unfolding(crate::specs::Runs::profile_of))]
    pub fn profile(self) -> Profile
        ensures { result ≡ profile_of self }
    {
        match self {
            Instruction::IndexedRamp {
                frequency,
                ramp,
                x4,
                steps,
            } => indexed(thousands(frequency), ramp, x4, steps),
            Instruction::IndexedRampFine {
                frequency,
                ramp,
                x4,
                steps,
            } => indexed(hundreds(frequency), ramp, x4, steps),
            Instruction::FreeRamp {
                frequency,
                ramp,
                backward,
                x4,
            } => free(thousands(frequency), ramp, backward, x4),
            Instruction::FreeRampFine {
                frequency,
                ramp,
                backward,
                x4,
            } => free(hundreds(frequency), ramp, backward, x4),
            Instruction::Indexed {
                frequency,
                x4,
                steps,
            } => indexed(hundreds(frequency), 0, x4, steps),
            Instruction::IndexedFine {
                x4,
                frequency,
                steps,
            } => indexed(hertz(frequency), 0, x4, steps),
            Instruction::Free {
                frequency,
                backward,
                x4,
            } => free(hundreds(frequency), 0, backward, x4),
            Instruction::FreeFine {
                backward,
                x4,
                frequency,
            } => free(hertz(frequency), 0, backward, x4),
            Instruction::ZeroSearch {
                frequency,
                ramp,
                backward,
                slow,
            } => search(thousands(frequency), ramp, backward, hundreds(slow)),
            Instruction::DelayedStop {
                frequency,
                ramp,
                travel,
                steps,
            } => stopped(thousands(frequency), ramp, travel, steps),
            Instruction::CamSetting { .. }
            | Instruction::OutputSetting { .. }
            | Instruction::CounterReset
            | Instruction::OpeningLoop { .. }
            | Instruction::ClosingLoop { .. }
            | Instruction::ConditionalJump { .. }
            | Instruction::TimeDelay { .. }
            | Instruction::Recovery
            | Instruction::CurrentSetting { .. }
            | Instruction::Null => STILL,
        }
    }
}

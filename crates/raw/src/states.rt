// A field of the record set to an integer, and which integers it can hold.
ghost use Rattle.std.specs.Prelude.{◌≡◌};
ghost use Rattle.machine.specs.Commands.{resolution_at};
ghost use Rattle.raw.specs.Fields.{phase_at, fits_field, with_field, counts_with};

use crate::integers;
use crate::names::Field;
use crate::remaining::Counts;
use inputs::inputs_of;
use machine::commands::resolution_at;
use machine::{Phase, Resolution, State};

// The value of RS at a place of its list; past its end the last.
#[tactic(auto, unfolding(machine::specs::Commands::resolution_at, laws::specs::Tests::choose))]
fn resolution_of(place: u64) -> Resolution
    ensures { result ≡ resolution_at place }
{
    u32::try_from(place).map_or(Resolution::B3, resolution_at)
}

// The form numbers the phases, and not their declaration.
#[tactic(auto, unfolding(crate::specs::Fields::phase_at, laws::specs::Tests::choose))]
fn phase_at(place: u64) -> Phase
    ensures { result ≡ phase_at place }
{
    match place {
        0 => Phase::Waiting,
        1 => Phase::Delay,
        2 => Phase::Run,
        3 => Phase::Braking,
        4 => Phase::Slowing,
        5 => Phase::EmergencySlowing,
        _ => Phase::BackOff,
    }
}

// Whether a field can hold an integer; of a remaining count its unit decides.
#[tactic(auto, unfolding(crate::specs::Fields::fits_field))]
pub fn fits(field: Field, v: u64) -> bool
    ensures { result ≡ fits_field field v }
{
    match field {
        Field::Address | Field::Current | Field::FaultCode => v < 256,
        Field::FaultCell | Field::SuspendedCell | Field::RunningCell => v < 256,
        Field::Resolution => v <= 7,
        Field::Interlock | Field::Absolute | Field::CamSet | Field::AtSpeed => v <= 1,
        Field::MotorPosition | Field::CamPosition => integers::is_signed(v),
        Field::Inputs => v <= 2047,
        Field::SuspendedLoops | Field::RunningLoops => v < 65536,
        Field::RunningPhase => v <= 6,
        Field::SuspendedRemaining | Field::RunningRemaining => true,
    }
}

// A field of the state set. A remaining count waits until the record is put together.
#[tactic(auto, unfolding(crate::specs::Fields::with_field))]
pub fn with_field(mut state: State, field: Field, v: u64) -> State
    ensures { result ≡ with_field state field v }
{
    match field {
        Field::Address => state.presets.address.0 = integers::byte(v),
        Field::Current => state.presets.current = integers::byte(v),
        Field::Resolution => state.presets.resolution = resolution_of(v),
        Field::Interlock => state.presets.interlock = v == 1,
        Field::Absolute => state.presets.absolute = v == 1,
        Field::MotorPosition => state.position.0 = integers::low(v),
        Field::Inputs => {
            // Rattle proves no array that is put straight into a field.
            let inputs = inputs_of(integers::word(v));
            state.inputs = inputs;
        }
        Field::CamSet => state.cam.set = v == 1,
        Field::CamPosition => state.cam.position.0 = integers::low(v),
        Field::FaultCode => state.fault.code = integers::byte(v),
        Field::FaultCell => state.fault.cell.0 = integers::byte(v),
        Field::SuspendedCell => state.suspended.cell.0 = integers::byte(v),
        Field::SuspendedLoops => state.suspended.loops = integers::word(v),
        Field::RunningCell => state.running.cell.0 = integers::byte(v),
        Field::RunningPhase => state.running.phase = phase_at(v),
        Field::SuspendedRemaining | Field::RunningRemaining => {}
        Field::RunningLoops => state.running.loops = integers::word(v),
        Field::AtSpeed => state.running.at_speed = v == 1,
    }
    state
}

// Both remaining counts with a field set.
#[tactic(auto, unfolding(crate::specs::Fields::counts_with))]
pub fn counts_with(mut counts: Counts, field: Field, v: u64) -> Counts
    ensures { result ≡ counts_with counts field v }
{
    match field {
        Field::SuspendedRemaining => counts.suspended = v,
        Field::RunningRemaining => counts.running = v,
        _ => {}
    }
    counts
}

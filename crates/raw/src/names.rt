// The fields that a raw write names, by their place in the list of names.
ghost use Rattle.std.specs.Prelude.{◌≡◌};
ghost use Rattle.raw.specs.Fields.{field_at};

#[derive(Clone, Copy)]
pub enum Field {
    Address,
    Current,
    Resolution,
    Interlock,
    Absolute,
    MotorPosition,
    Inputs,
    CamSet,
    CamPosition,
    FaultCode,
    FaultCell,
    SuspendedCell,
    SuspendedRemaining,
    SuspendedLoops,
    RunningCell,
    RunningPhase,
    RunningRemaining,
    RunningLoops,
    AtSpeed,
}

// The field at a place of the list; past its end the last.
#[tactic(auto, unfolding(crate::specs::Fields::field_at, crate::specs::Fields::field_in, crate::specs::Fields::fields, laws::specs::Tests::choose))]
pub fn field_at(place: usize) -> Field
    ensures { result ≡ field_at place }
{
    match place {
        0 => Field::Address,
        1 => Field::Current,
        2 => Field::Resolution,
        3 => Field::Interlock,
        4 => Field::Absolute,
        5 => Field::MotorPosition,
        6 => Field::Inputs,
        7 => Field::CamSet,
        8 => Field::CamPosition,
        9 => Field::FaultCode,
        10 => Field::FaultCell,
        11 => Field::SuspendedCell,
        12 => Field::SuspendedRemaining,
        13 => Field::SuspendedLoops,
        14 => Field::RunningCell,
        15 => Field::RunningPhase,
        16 => Field::RunningRemaining,
        17 => Field::RunningLoops,
        _ => Field::AtSpeed,
    }
}

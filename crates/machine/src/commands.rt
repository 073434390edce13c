// What a string asks for, once its fields are read.
ghost use Rattle.std.specs.Prelude.{◌≡◌};
ghost use Rattle.machine.specs.Commands.{preset_kind, resolution_at};

use crate::Resolution;
use fields::kinds::Kind;
use fields::names::Names;
use instruction::Cell;
use units::{CellAddress, DriveAddress};

// The address in a string: of one drive, or 99 for every drive. Not a drive's own address.
#[derive(Clone, Copy)]
pub struct StringAddress(pub u16);

impl StringAddress {
    pub const EVERY: u16 = 99;
}

// The first four bytes of a string.
#[derive(Clone, Copy)]
pub struct Header {
    // Whether the first two are digits. A mark and no Option: the answer takes the address where this
    // is known, and each of six definitions would open it again.
    pub digits: bool,
    // What they say as digits.
    pub address: StringAddress,
    // The other two as one number.
    pub code: u16,
}

// A preset with a value.
#[derive(Clone, Copy)]
pub enum PresetValue {
    // AD
    Address(DriveAddress),
    // IN
    Current(u8),
    // RS
    Resolution(Resolution),
    // ES
    Interlock(bool),
    // CM
    Absolute(bool),
}

// The commands and requests of 01, "Strings". Names stand as their place in their list.
#[derive(Clone, Copy)]
pub enum Command {
    // WN
    Store { at: CellAddress, cell: Cell },
    // WS
    SetPreset { value: PresetValue },
    // PS
    Start { at: CellAddress },
    // EE
    EmergencyStop,
    // ES
    FreeRunStop,
    // SA: 32 bits in two's complement
    SetPosition { bits: u32 },
    // SO
    SetOutput { output: u8, on: bool },
    // SC
    SetCam { set: bool, bits: u32 },
    // QA
    AskPosition,
    // QS
    AskPreset { preset: u8 },
    // QI
    AskInput { input: u8 },
    // QO
    AskOutput { output: u8 },
    // QM
    AskCell { at: CellAddress },
    // QC
    AskCam,
    // QE
    AskFault,
    // QR
    AskSuspended,
    // An unknown code, a wrong field or a value out of range; a PS that input EE forbids. A kind like
    // the others, and no Option: `AAN` answers it in the same tables of answers and of acts.
    Wrong,
}

// The values that a preset takes, by its place in AD, IN, RS, ES, CM.
#[tactic(auto, unfolding(crate::specs::Commands::preset_kind, laws::specs::Tests::choose))]
pub fn preset_kind(preset: u32) -> Kind
    ensures { result ≡ preset_kind preset }
{
    match preset {
        0 => Kind::Count(0, 47),
        1 => Kind::Count(0, 3),
        2 => Kind::Name(Names::Resolutions),
        _ => Kind::Count(0, 1),
    }
}

// The value of RS at a place of its list.
#[tactic(auto, unfolding(crate::specs::Commands::resolution_at, laws::specs::Tests::choose))]
pub fn resolution_at(place: u32) -> Resolution
    ensures { result ≡ resolution_at place }
{
    match place {
        0 => Resolution::D0,
        1 => Resolution::D1,
        2 => Resolution::D2,
        3 => Resolution::D3,
        4 => Resolution::B0,
        5 => Resolution::B1,
        6 => Resolution::B2,
        _ => Resolution::B3,
    }
}

// What a string asks for: its code and its fields. The string stands here without its byte 13.
#![tactic(auto)]

ghost use Rattle.std.specs.Prelude.{◌≡◌, true};
ghost use Rattle.machine.specs.Commands.{command_by, placed};

use fields::kinds::Kind;
use fields::names::Names;
use machine::codes;
use machine::commands::Command;
use single::Single;

mod commands;
pub mod naming;
mod single;

// The fields begin after the address and the code.
const FIELDS: usize = 4;

// BBB.
const CELL: Kind = Kind::Fixed(3, 100, 230);

// What a string of this code asks for, or that it is wrong.
pub fn read_command(code: u16, s: &[u8]) -> Command
    ensures value { result ≡ command_by code s.now }
    ensures named { placed result ≡ true }
{
    match code {
        codes::WN => commands::store_in(s),
        codes::WS => commands::preset_in(s),
        codes::PS => single::single_of(Single::Start, CELL, s),
        codes::EE => single::alone(Command::EmergencyStop, s),
        codes::ES => single::alone(Command::FreeRunStop, s),
        codes::SA => single::single_of(
            Single::SetPosition,
            Kind::Optional(0x8000_0000, 0x7fff_ffff),
            s,
        ),
        codes::SO => commands::output_in(s),
        codes::SC => commands::cam_in(s),
        codes::QA => single::alone(Command::AskPosition, s),
        codes::QS => single::single_of(Single::AskPreset, Kind::Name(Names::Presets), s),
        codes::QI => single::single_of(Single::AskInput, Kind::Name(Names::Inputs), s),
        codes::QO => single::single_of(Single::AskOutput, Kind::Name(Names::Outputs), s),
        codes::QM => single::single_of(Single::AskCell, CELL, s),
        codes::QC => single::alone(Command::AskCam, s),
        codes::QE => single::alone(Command::AskFault, s),
        codes::QR => single::alone(Command::AskSuspended, s),
        _ => Command::Wrong,
    }
}

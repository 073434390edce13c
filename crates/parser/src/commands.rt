// Commands with several fields: WN, WS, SO and SC.
ghost use Rattle.std.specs.Prelude.{◌≡◌};
ghost use Rattle.machine.specs.Commands.{preset_with, cam_with, cam_in};
ghost use Rattle.parser.specs.Fields.{store_of, preset_of, output_of};

use crate::FIELDS;
use crate::naming::cell_field;
use fields::kinds::Kind;
use fields::names::Names;
use fields::rows;
use instruction::text;
use machine::commands::{Command, PresetValue, preset_kind, resolution_at};
use units::{CellAddress, DriveAddress};

// V.
const BIT: Kind = Kind::Fixed(1, 0, 1);

// WN: a cell's address, and the cell.
#[tactic(auto, unfolding(machine::specs::Commands::store_in, machine::specs::Commands::on_parsed, machine::specs::Commands::on_sent))]
pub fn store_in(s: &[u8]) -> Command
    ensures { result ≡ store_of s.now }
{
    let Some(named) = cell_field(s) else {
        return Command::Wrong;
    };
    let Some(cell) = text::read_cell(s, named.at) else {
        return Command::Wrong;
    };
    Command::Store {
        at: CellAddress((named.values[0] % 256) as u8),
        cell,
    }
}

// WS: a preset's name, and a value of its kind.
#[tactic(auto, unfolding(machine::specs::Commands::preset_in, machine::specs::Commands::on_fields, machine::specs::Commands::on_parsed))]
pub fn preset_in(s: &[u8]) -> Command
    ensures { result ≡ preset_of s.now }
{
    let Some(named) = rows::parse_fields(&[Kind::Name(Names::Presets)], s, FIELDS) else {
        return Command::Wrong;
    };
    let preset = named.values[0];
    let Some(sent) = rows::parse_all(&[preset_kind(preset)], s, named.at) else {
        return Command::Wrong;
    };
    Command::SetPreset {
        value: preset_with(preset, sent.values[0]),
    }
}

// The preset at a place of AD, IN, RS, ES, CM, with a value of its kind.
#[tactic(auto, unfolding(machine::specs::Commands::preset_with, laws::specs::Tests::choose))]
fn preset_with(preset: u32, value: u32) -> PresetValue
    ensures { result ≡ preset_with preset value }
{
    let byte = (value % 256) as u8;
    match preset {
        0 => PresetValue::Address(DriveAddress(byte)),
        1 => PresetValue::Current(byte),
        2 => PresetValue::Resolution(resolution_at(value)),
        3 => PresetValue::Interlock(value == 1),
        _ => PresetValue::Absolute(value == 1),
    }
}

// SO: an output's name, and whether it is on.
#[tactic(auto, unfolding(machine::specs::Commands::on_all, machine::specs::Commands::on_fields, machine::specs::Commands::on_parsed))]
pub fn output_in(s: &[u8]) -> Command
    ensures { result ≡ output_of s.now }
{
    let kinds = [Kind::Name(Names::Settable), BIT];
    let Some(p) = rows::parse_all(&kinds, s, FIELDS) else {
        return Command::Wrong;
    };
    Command::SetOutput {
        output: (p.values[0] % 256) as u8,
        on: p.values[1] == 1,
    }
}

// A cam, which has position 0 where it is unset.
#[tactic(auto, unfolding(machine::specs::Commands::cam_with, laws::specs::Tests::choose))]
fn cam_with(set: bool, bits: u32) -> Command
    ensures { result ≡ cam_with set bits }
{
    Command::SetCam {
        set,
        bits: if set { bits } else { 0 },
    }
}

// SC: whether the cam is set, and its position; `SC,0` may end there.
#[tactic(auto, unfolding(machine::specs::Commands::cam_in, machine::specs::Commands::on_all, machine::specs::Commands::on_fields, machine::specs::Commands::on_parsed, laws::specs::Tests::choose))]
pub fn cam_in(s: &[u8]) -> Command
    ensures { result ≡ cam_in s.now }
{
    if rows::parse_all(&[Kind::Fixed(1, 0, 0)], s, FIELDS).is_some() {
        return Command::SetCam {
            set: false,
            bits: 0,
        };
    }
    let kinds = [BIT, Kind::Signed(0x8000_0000, 0x7fff_ffff)];
    let Some(p) = rows::parse_all(&kinds, s, FIELDS) else {
        return Command::Wrong;
    };
    cam_with(p.values[0] == 1, p.values[1])
}

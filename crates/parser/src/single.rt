// Commands and requests with no field, and those with one.
ghost use Rattle.std.specs.Prelude.{◌≡◌};
ghost use Rattle.parser.specs.Fields.{alone_of, single_with, single_of};

use crate::FIELDS;
use fields::kinds::Kind;
use fields::rows;
use machine::commands::Command;
use units::CellAddress;

// Commands and requests that have one field.
#[derive(Clone, Copy)]
pub enum Single {
    Start,
    SetPosition,
    AskPreset,
    AskInput,
    AskOutput,
    AskCell,
}

// A command or request that has no field.
#[tactic(auto, unfolding(machine::specs::Commands::on_all, machine::specs::Commands::on_fields, machine::specs::Commands::on_parsed))]
pub fn alone(command: Command, s: &[u8]) -> Command
    ensures { result ≡ alone_of command s.now }
{
    match rows::parse_all(&[], s, FIELDS) {
        Some(_) => command,
        None => Command::Wrong,
    }
}

// What the value of the field asks for.
fn single_with(single: Single, v: u32) -> Command
    ensures { result ≡ single_with single v }
{
    let b = (v % 256) as u8;
    match single {
        Single::Start => Command::Start { at: CellAddress(b) },
        Single::SetPosition => Command::SetPosition { bits: v },
        Single::AskPreset => Command::AskPreset { preset: b },
        Single::AskInput => Command::AskInput { input: b },
        Single::AskOutput => Command::AskOutput { output: b },
        Single::AskCell => Command::AskCell { at: CellAddress(b) },
    }
}

// A command or request that has one field, of a kind.
#[tactic(auto, unfolding(machine::specs::Commands::on_all, machine::specs::Commands::on_fields, machine::specs::Commands::on_parsed))]
pub fn single_of(single: Single, kind: Kind, s: &[u8]) -> Command
    ensures { result ≡ single_of single kind s.now }
{
    match rows::parse_all(&[kind], s, FIELDS) {
        Some(p) => single_with(single, p.values[0]),
        None => Command::Wrong,
    }
}

// A string given to a drive.
ghost use Rattle.std.specs.Prelude.{◌≡◌, true, [], length};
ghost use Rattle.laws.specs.Tests.{choose};
ghost use Rattle.laws.specs.Writing.{Put};
ghost use Rattle.machine.specs.Soundness.{sound};
ghost use Rattle.machine.specs.Commands.{placed};
ghost use Rattle.machine.specs.Acting.{cells_after, named_cell};
ghost use Rattle.machine.specs.Answers.{answer_at};
ghost use Rattle.machine.specs.Strings.{addressed, to_every, carried_out, told_in, told};
ghost use Rattle.machine.specs.Operations.{filled};
ghost use Rattle.replies.specs.Pieces.{Answerable};
ghost use Rattle.serial.specs.Telling.{Tellable};

use crate::acting::{acted, named};
use crate::hearing::{admitted, allowed, ended, header_in, judged, to_every};
use instruction::Cell;
use machine::commands::{Command, Header};
use machine::{Machine, State};

// How many bytes answer, none where the string is silent, and the drive after it.
#[derive(Clone, Copy)]
pub struct Heard {
    pub length: usize,
    pub machine: Machine,
}

// The answer; a string to every drive has none.
fn answered(buf: &mut [u8], header: Header, command: Command, state: State, cell: Cell) -> usize
    requires { Answerable header.address command state cell buf.old }
    ensures { Put buf.old buf.new
        (choose (to_every header) [] (answer_at command header.address state cell)) 0 result }
{
    if to_every(header) {
        return 0;
    }
    let aa = header.address;
    replies::put_answer(buf, aa, command, state, cell)
}

// The record with its next state, and with the cell that a WN stores.
#[tactic(auto, unfolding(machine::specs::Acting::cells_after, machine::specs::Record::stored_at, machine::specs::Commands::placed, machine::specs::Soundness::is_cell, laws::specs::Tests::both))]
fn kept(mut machine: Machine, command: Command, state: State) -> Machine
    requires { placed command ≡ true }
    ensures { result ≡ record { state = state; cells = cells_after command machine.cells } }
{
    machine.state = state;
    if let Command::Store { at, cell } = command {
        let i = at.place();
        machine.cells[i] = cell;
        return machine;
    }
    machine
}

// The cell that a command names.
fn named_cell(machine: Machine, command: Command) -> Cell
    requires { (sound machine ≡ true) × (placed command ≡ true) }
    ensures { result ≡ named_cell command machine }
{
    let state = machine.state;
    let at = named(command, state);
    let i = at.place();
    machine.cells[i]
}

// A string that is heard: the answer, and the drive after its command.
fn carried_out(machine: Machine, header: Header, command: Command, buf: &mut [u8]) -> Heard
    requires { Tellable machine buf.old × (placed command ≡ true) ×
        (addressed machine.state.presets.address header ≡ true) }
    ensures machine_value { result.machine ≡ (carried_out command header.address machine).machine }
    ensures answer { Put buf.old buf.new
        (choose (to_every header) [] (carried_out command header.address machine).answer)
        0 result.length }
{
    let state = machine.state;
    let cell = named_cell(machine, command);
    let length = answered(buf, header, command, state, cell);
    let after = acted(command, state, cell);
    Heard {
        length,
        machine: kept(machine, command, after),
    }
}

// A string that ends in byte 13, by its header and the command that it asks for, given to a sound
// drive with a buffer of at least 64 bytes.
pub fn tell_by(machine: Machine, header: Header, command: Command, buf: &mut [u8]) -> Heard
    requires { Tellable machine buf.old × (placed command ≡ true) }
    ensures machine_value { result.machine ≡ (told_in header command machine).machine }
    ensures answer { (result.length ≡ length (told_in header command machine).answer) ×
        (buf.new ≡ filled (told_in header command machine).answer buf.old) }
{
    let state = machine.state;
    if !admitted(header, state) {
        return Heard { length: 0, machine };
    }
    carried_out(machine, header, allowed(command, state), buf)
}

// A string given to a sound drive, with a buffer of at least 64 bytes. One that is not heard is
// not read further.
pub fn tell(machine: Machine, b: &[u8], buf: &mut [u8]) -> Heard
    requires { Tellable machine buf.old }
    ensures machine_value { result.machine ≡ (told b.now machine).machine }
    ensures answer { (result.length ≡ length (told b.now machine).answer) ×
        (buf.new ≡ filled (told b.now machine).answer buf.old) }
{
    if !ended(b) {
        return Heard { length: 0, machine };
    }
    let n = b.len();
    let s = &b[..n - 1];
    let header = header_in(s);
    let state = machine.state;
    if !admitted(header, state) {
        return Heard { length: 0, machine };
    }
    let command = judged(n, header.code, s);
    tell_by(machine, header, command, buf)
}

// The bytes that answer a string, in the lent buffer.
#![tactic(auto)]

ghost use Rattle.laws.specs.Writing.{Put};
ghost use Rattle.machine.specs.Answers.{answer_at};
ghost use Rattle.replies.specs.Pieces.{Answerable};

use instruction::Cell;
use machine::State;
use machine::commands::{Command, StringAddress};
use pieces::{put_accepted, put_rejected};
use requests::{
    put_cam, put_fault, put_input, put_memory, put_output, put_position, put_preset, put_suspended,
};

mod pieces;
mod requests;
pub mod values;

// The answer to a command or request, given the cell that it names.
pub fn put_answer(
    buf: &mut [u8],
    aa: StringAddress,
    command: Command,
    state: State,
    cell: Cell,
) -> usize
    requires { Answerable aa command state cell buf.old }
    ensures { Put buf.old buf.new (answer_at command aa state cell) 0 result }
{
    match command {
        Command::Store { .. }
        | Command::SetPreset { .. }
        | Command::Start { .. }
        | Command::EmergencyStop
        | Command::FreeRunStop
        | Command::SetPosition { .. }
        | Command::SetOutput { .. }
        | Command::SetCam { .. } => put_accepted(buf, aa),
        Command::AskPosition => put_position(buf, aa, state),
        Command::AskPreset { preset } => put_preset(buf, aa, preset, state),
        Command::AskInput { input } => put_input(buf, aa, input, state),
        Command::AskOutput { output } => put_output(buf, aa, output, state),
        Command::AskCell { at } => put_memory(buf, aa, at, cell),
        Command::AskCam => put_cam(buf, aa, state.cam),
        Command::AskFault => put_fault(buf, aa, state),
        Command::AskSuspended => put_suspended(buf, aa, state.suspended),
        Command::Wrong => put_rejected(buf, aa),
    }
}

// The answer to each request: its letter, the row of its fields, and their values.
ghost use Rattle.std.specs.Prelude.{◌≡◌, true, ◌<◌};
ghost use Rattle.laws.specs.Writing.{Put};
ghost use Rattle.fields.specs.Kinds.{valid};
ghost use Rattle.fields.specs.declared.kinds.Kind.TheVariants.{Next};
ghost use Rattle.instruction.specs.Soundness.{cell_sound};
ghost use Rattle.machine.specs.Soundness.{is_cell, presets_sound, fault_sound};
ghost use Rattle.machine.specs.Answers.{preset_text, position_text, input_text, output_text, cam_text};
ghost use Rattle.machine.specs.Answers.{memory_text, fault_text, suspended_text, answer_of};
ghost use Rattle.replies.specs.Pieces.{Ready};

use crate::pieces::{ANY_SIGNED, put_end, put_front, put_row};
use crate::values::{bit, output_value, preset_value, remaining_bits};
use fields::kinds::Kind;
use fields::names::Names;
use fields::rows;
use instruction::{Cell, text};
use machine::commands::{StringAddress, preset_kind};
use machine::{Cam, State, Suspended};
use units::{CellAddress, LOOP_LIMIT};

// BBB, V and S, and nnn of an interrupted loop count.
const CELL: Kind = Kind::Fixed(3, 100, 230);

const BIT: Kind = Kind::Fixed(1, 0, 1);

const LOOPS: Kind = Kind::Count(0, LOOP_LIMIT as u32);

// QA: the position.
pub fn put_position(buf: &mut [u8], aa: StringAddress, state: State) -> usize
    requires { Ready aa buf.old }
    ensures { Put buf.old buf.new (answer_of aa "QA" (position_text state)) 0 result }
{
    put_row(
        buf,
        aa,
        b'A',
        &[ANY_SIGNED],
        [state.position.0, 0, 0, 0, 0, 0],
    )
}

// QS: a preset, by its place in AD, IN, RS, ES, CM.
pub fn put_preset(buf: &mut [u8], aa: StringAddress, preset: u8, state: State) -> usize
    requires { Ready aa buf.old × ((preset < 5) × (presets_sound state.presets ≡ true)) }
    ensures { Put buf.old buf.new (answer_of aa "QS" (preset_text preset state)) 0 result }
{
    let kind = preset_kind(preset as u32);
    let value = preset_value(preset, state.presets);
    let kinds = [Kind::Name(Names::Presets), kind];
    put_row(buf, aa, b'S', &kinds, [preset as u32, value, 0, 0, 0, 0])
}

// QI: an input.
pub fn put_input(buf: &mut [u8], aa: StringAddress, input: u8, state: State) -> usize
    requires { Ready aa buf.old × (input < 11) }
    ensures { Put buf.old buf.new (answer_of aa "QI" (input_text input state)) 0 result }
{
    let value = bit(state.inputs[input as usize]);
    let kinds = [Kind::Name(Names::Inputs), BIT];
    put_row(buf, aa, b'I', &kinds, [input as u32, value, 0, 0, 0, 0])
}

// QO: an output, or BS or FA.
pub fn put_output(buf: &mut [u8], aa: StringAddress, output: u8, state: State) -> usize
    requires { Ready aa buf.old × (output < 16) }
    ensures { Put buf.old buf.new (answer_of aa "QO" (output_text output state)) 0 result }
{
    let value = output_value(output, state);
    let kinds = [Kind::Name(Names::Outputs), BIT];
    put_row(buf, aa, b'O', &kinds, [output as u32, value, 0, 0, 0, 0])
}

// QM: a cell, as WN stored it.
pub fn put_memory(buf: &mut [u8], aa: StringAddress, at: CellAddress, cell: Cell) -> usize
    requires { Ready aa buf.old × ((is_cell at ≡ true) × (cell_sound cell ≡ true)) }
    ensures { Put buf.old buf.new (answer_of aa "QM" (memory_text at cell)) 0 result }
{
    let place = put_front(buf, aa, b'Q', b'M');
    let next = rows::put_fields(buf, place, &[CELL], [at.0 as u32, 0, 0, 0, 0, 0]);
    let end = text::put_cell(buf, next, cell);
    put_end(buf, end)
}

// QC: the cam; of an unset one no position.
pub fn put_cam(buf: &mut [u8], aa: StringAddress, cam: Cam) -> usize
    requires { Ready aa buf.old }
    ensures { Put buf.old buf.new (answer_of aa "QC" (cam_text cam)) 0 result }
{
    if cam.set {
        let kinds = [BIT, ANY_SIGNED];
        return put_row(buf, aa, b'C', &kinds, [1, cam.position.0, 0, 0, 0, 0]);
    }
    put_row(buf, aa, b'C', &[BIT], [0, 0, 0, 0, 0, 0])
}

// QE: the error code and its cell.
pub fn put_fault(buf: &mut [u8], aa: StringAddress, state: State) -> usize
    requires { Ready aa buf.old × (fault_sound state.fault ≡ true) }
    ensures { Put buf.old buf.new (answer_of aa "QE" (fault_text state)) 0 result }
{
    let fault = state.fault;
    let code = fault.code as u32;
    let cell = fault.cell.0 as u32;
    let kinds = [Kind::Fixed(2, 0, 99), Kind::Fixed(3, 0, 999)];
    put_row(buf, aa, b'E', &kinds, [code, cell, 0, 0, 0, 0])
}

// QR: the interrupted record; an empty one is 000.
pub fn put_suspended(buf: &mut [u8], aa: StringAddress, suspended: Suspended) -> usize
    requires { Ready aa buf.old × (valid Next suspended.cell.0 ≡ true) }
    ensures { Put buf.old buf.new (answer_of aa "QR" (suspended_text suspended)) 0 result }
{
    let cell = suspended.cell.0 as u32;
    if cell == 0 {
        return put_row(buf, aa, b'R', &[Kind::Fixed(3, 0, 999)], [0, 0, 0, 0, 0, 0]);
    }
    let bits = remaining_bits(suspended.remaining);
    let loops = suspended.loops as u32;
    let kinds = [CELL, ANY_SIGNED, LOOPS];
    put_row(buf, aa, b'R', &kinds, [cell, bits, loops, 0, 0, 0])
}

// The numbers that answers show.
ghost use Rattle.std.specs.Prelude.{◌≡◌};
ghost use Rattle.instruction.specs.Numbers.{bit_of};
ghost use Rattle.machine.specs.Answers.{resolution_place, preset_value, output_value, remaining_bits};

use machine::{Presets, Remaining, Resolution, State};

// V as a number, in the word of 01's definitions, which the contracts of rows cite.
pub fn bit(on: bool) -> u32
    ensures { result ≡ bit_of on }
{
    u32::from(on)
}

// The place of a value of RS in its list. The type is machine's, so no `From` can stand here.
fn resolution_place(resolution: Resolution) -> u32
    ensures { result ≡ resolution_place resolution }
{
    match resolution {
        Resolution::D0 => 0,
        Resolution::D1 => 1,
        Resolution::D2 => 2,
        Resolution::D3 => 3,
        Resolution::B0 => 4,
        Resolution::B1 => 5,
        Resolution::B2 => 6,
        Resolution::B3 => 7,
    }
}

// The value of a preset by its place in AD, IN, RS, ES, CM.
#[tactic(auto, unfolding(machine::specs::Answers::preset_value, laws::specs::Tests::choose))]
pub fn preset_value(preset: u8, presets: Presets) -> u32
    ensures { result ≡ preset_value preset presets }
{
    match preset {
        0 => u32::from(presets.address.0),
        1 => u32::from(presets.current),
        2 => resolution_place(presets.resolution),
        3 => bit(presets.interlock),
        _ => bit(presets.absolute),
    }
}

// The outputs, then BS, always 0, and FA, always 1.
#[tactic(auto, unfolding(machine::specs::Answers::output_value, laws::specs::Tests::choose))]
pub fn output_value(output: u8, state: State) -> u32
    ensures { result ≡ output_value output state }
{
    match output {
        0..=13 => bit(state.outputs[usize::from(output)]),
        14 => 0,
        _ => 1,
    }
}

// A rest as a signed number of 32 bits.
#[tactic(auto, unfolding(machine::specs::Answers::remaining_bits))]
pub fn remaining_bits(remaining: Remaining) -> u32
    ensures { result ≡ remaining_bits remaining }
{
    match remaining {
        Remaining::Nothing => 0,
        Remaining::Counted(n) => n.bits(),
        Remaining::Timed(n) => n.0,
    }
}

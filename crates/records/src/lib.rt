// The record of a drive as text: the integers that raw writes change, in the order of their names,
// parted by commas. What a line has no place for is cut.
#![tactic(auto)]

ghost use Rattle.std.specs.Prelude.{◌≡◌};
ghost use Rattle.lines.specs.Gathering.{Gathered};
ghost use Rattle.records.specs.Records.{signed_field, remaining_text, remaining_field};
ghost use Rattle.records.specs.Records.{inputs_word, phase_place};
ghost use Rattle.records.specs.Records.{presets_text, cam_text, fault_text};
ghost use Rattle.records.specs.Records.{suspended_text, running_text, record_text};

use lines::gathering::{gather, gather_bit, gather_number, gather_signed};
use machine::{Cam, Fault, Phase, Presets, Remaining, Running, State, Suspended};
use observed::orders::gather_field;
use replies::values::{bit, preset_value};

// `-9000,`: a number of 32 bits in two's complement.
fn gather_signed_field(line: &mut [u8], n: usize, bits: u32) -> usize
    ensures { Gathered line.old n (signed_field bits) line.new result }
{
    let a = gather_signed(line, n, bits);
    gather(line, a, b",")
}

// `+0`, steps or milliseconds. Milliseconds have all 32 bits, and are never below zero.
fn gather_remaining(line: &mut [u8], n: usize, remaining: Remaining) -> usize
    ensures { Gathered
        line.old n (remaining_text remaining) line.new result }
{
    match remaining {
        Remaining::Nothing => gather(line, n, b"+0"),
        Remaining::Counted(steps) => gather_signed(line, n, steps.bits()),
        Remaining::Timed(delay) => {
            let next = gather(line, n, b"+");
            gather_number(line, next, delay.0)
        }
    }
}

fn gather_remaining_field(line: &mut [u8], n: usize, remaining: Remaining) -> usize
    ensures { Gathered
        line.old n (remaining_field remaining) line.new result }
{
    let a = gather_remaining(line, n, remaining);
    gather(line, a, b",")
}

// AD, IN, RS, ES and CM.
fn gather_presets(line: &mut [u8], n: usize, presets: Presets) -> usize
    ensures { Gathered line.old n (presets_text presets) line.new result }
{
    let a = gather_field(line, n, preset_value(0, presets));
    let b = gather_field(line, a, preset_value(1, presets));
    let c = gather_field(line, b, preset_value(2, presets));
    let d = gather_field(line, c, preset_value(3, presets));
    gather_field(line, d, preset_value(4, presets))
}

// The word that sets the inputs so: the first is its lowest bit.
fn word_of(inputs: [bool; 11]) -> u32
    ensures { result ≡ inputs_word inputs }
{
    let mut word = 0;
    for (i, on) in inputs.iter().enumerate() {
        word += bit(*on) << i;
    }
    word
}

fn gather_cam(line: &mut [u8], n: usize, cam: Cam) -> usize
    ensures { Gathered line.old n (cam_text cam) line.new result }
{
    let a = gather_field(line, n, bit(cam.set));
    gather_signed_field(line, a, cam.position.0)
}

fn gather_fault(line: &mut [u8], n: usize, fault: Fault) -> usize
    ensures { Gathered line.old n (fault_text fault) line.new result }
{
    let a = gather_field(line, n, fault.code as u32);
    gather_field(line, a, fault.cell.0 as u32)
}

fn gather_suspended(line: &mut [u8], n: usize, suspended: Suspended) -> usize
    ensures { Gathered
        line.old n (suspended_text suspended) line.new result }
{
    let a = gather_field(line, n, suspended.cell.0 as u32);
    let b = gather_remaining_field(line, a, suspended.remaining);
    gather_field(line, b, suspended.loops as u32)
}

// The place of a phase among those of raw writes. The form numbers them, and not the declaration.
fn phase_place(phase: Phase) -> u32
    ensures { result ≡ phase_place phase }
{
    match phase {
        Phase::Waiting => 0,
        Phase::Delay => 1,
        Phase::Run => 2,
        Phase::Braking => 3,
        Phase::Slowing => 4,
        Phase::EmergencySlowing => 5,
        Phase::BackOff => 6,
    }
}

fn gather_running(line: &mut [u8], n: usize, running: Running) -> usize
    ensures { Gathered line.old n (running_text running) line.new result }
{
    let a = gather_field(line, n, running.cell.0 as u32);
    let b = gather_field(line, a, phase_place(running.phase));
    let c = gather_remaining_field(line, b, running.remaining);
    let d = gather_field(line, c, running.loops as u32);
    gather_bit(line, d, running.at_speed)
}

pub fn gather_record(line: &mut [u8], n: usize, state: State) -> usize
    ensures { Gathered line.old n (record_text state) line.new result }
{
    let a = gather_presets(line, n, state.presets);
    let b = gather_signed_field(line, a, state.position.0);
    let c = gather_field(line, b, word_of(state.inputs));
    let d = gather_cam(line, c, state.cam);
    let e = gather_fault(line, d, state.fault);
    let f = gather_suspended(line, e, state.suspended);
    gather_running(line, f, state.running)
}

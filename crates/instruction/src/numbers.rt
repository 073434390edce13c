// A cell as the numbers of its QM answer, and back.
ghost use Rattle.std.specs.Prelude.{◌≡◌, eqb};
ghost use Rattle.units.specs.Bits.{steps_of, bits_of};
ghost use Rattle.frequency.specs.Places.{hertz_of, place_of};
ghost use Rattle.instruction.specs.declared.Instruction.TheVariants.{ConditionalJump};
ghost use Rattle.instruction.specs.Numbers.{bit_of, is_one, travel_backward, travel_x4, travel_of};
ghost use Rattle.instruction.specs.Numbers.{six, numbers_with, numbers_of, byte_of, word_of};
ghost use Rattle.instruction.specs.Numbers.{address_of, with_next, cam_of, cell_of, same_numbers};

use crate::{Cell, ConditionName, Instruction, OutputName, Travel};
use units::{CellAddress, Milliseconds, Position, Steps};

fn bit(b: bool) -> u32
    ensures { result ≡ bit_of b }
{
    u32::from(b)
}

fn one(v: u32) -> bool
    ensures { result ≡ is_one v }
{
    v == 1
}

fn byte(v: u32) -> u8
    ensures { result ≡ byte_of v }
{
    (v % 256) as u8
}

fn word(v: u32) -> u16
    ensures { result ≡ word_of v }
{
    (v % 65536) as u16
}

impl Travel {
    pub fn backward(self) -> bool
        ensures { result ≡ travel_backward self }
    {
        matches!(self, Travel::Backward | Travel::BackwardX4)
    }

    pub fn x4(self) -> bool
        ensures { result ≡ travel_x4 self }
    {
        matches!(self, Travel::ForwardX4 | Travel::BackwardX4)
    }
}

#[tactic(auto, unfolding(crate::specs::Numbers::travel_of, laws::specs::Tests::choose))]
fn travel(backward: bool, x4: bool) -> Travel
    ensures { result ≡ travel_of backward x4 }
{
    match (backward, x4) {
        (false, false) => Travel::Forward,
        (false, true) => Travel::ForwardX4,
        (true, false) => Travel::Backward,
        (true, true) => Travel::BackwardX4,
    }
}

impl Instruction {
    // The numbers of an instruction with its next cell.
    #[tactic(auto, unfolding(crate::specs::Numbers::numbers_with))]
    fn numbers(self, next: u32) -> [u32; 6]
        ensures { result ≡ numbers_with self next }
    {
        match self {
            Instruction::IndexedRamp {
                frequency: f,
                ramp: r,
                x4,
                steps,
            }
            | Instruction::IndexedRampFine {
                frequency: f,
                ramp: r,
                x4,
                steps,
            } => { [u32::from(f), u32::from(r), steps.bits(), bit(x4), next, 0] }
            Instruction::FreeRamp {
                frequency: f,
                ramp: r,
                backward,
                x4,
            }
            | Instruction::FreeRampFine {
                frequency: f,
                ramp: r,
                backward,
                x4,
            } => { [u32::from(f), u32::from(r), bit(backward), bit(x4), next, 0] }
            Instruction::Indexed {
                frequency: f,
                x4,
                steps,
            } => { [u32::from(f), steps.bits(), bit(x4), next, 0, 0] }
            Instruction::IndexedFine {
                frequency: f,
                x4,
                steps,
            } => { [u32::from(f.hertz()), steps.bits(), bit(x4), next, 0, 0] }
            Instruction::Free {
                frequency: f,
                backward,
                x4,
            } => { [u32::from(f), bit(backward), bit(x4), next, 0, 0] }
            Instruction::FreeFine {
                frequency: f,
                backward,
                x4,
            } => { [u32::from(f.hertz()), bit(backward), bit(x4), next, 0, 0] }
            Instruction::ZeroSearch {
                frequency: f,
                ramp: r,
                backward,
                slow,
            } => {
                [
                    u32::from(f),
                    u32::from(r),
                    bit(backward),
                    u32::from(slow),
                    next,
                    0,
                ]
            }
            Instruction::DelayedStop {
                frequency: f,
                ramp: r,
                travel: t,
                steps,
            } => {
                [
                    u32::from(f),
                    u32::from(r),
                    bit(t.backward()),
                    steps.bits(),
                    bit(t.x4()),
                    next,
                ]
            }
            Instruction::CamSetting { set, position } => [bit(set), position.0, next, 0, 0, 0],
            Instruction::OutputSetting { output, on } => {
                [u32::from(output.0), bit(on), next, 0, 0, 0]
            }
            Instruction::OpeningLoop { count } => [u32::from(count), next, 0, 0, 0, 0],
            Instruction::ClosingLoop { jump } => [u32::from(jump.0), next, 0, 0, 0, 0],
            Instruction::ConditionalJump {
                condition,
                on,
                jump,
            } => {
                [
                    u32::from(condition.0),
                    bit(on),
                    u32::from(jump.0),
                    next,
                    0,
                    0,
                ]
            }
            Instruction::TimeDelay { delay } => [delay.0, next, 0, 0, 0, 0],
            Instruction::CurrentSetting { on } => [bit(on), next, 0, 0, 0, 0],
            Instruction::CounterReset | Instruction::Null => [next, 0, 0, 0, 0, 0],
            Instruction::Recovery => [0; 6],
        }
    }
}

impl Cell {
    // The numbers of a cell's QM answer, in its order, and zeros after them.
    pub fn numbers(self) -> [u32; 6]
        ensures { result ≡ numbers_of self }
    {
        self.instruction.numbers(u32::from(self.next.0))
    }
}

// The address that a number names, in 8 bits.
fn address(v: u32) -> CellAddress
    ensures { result ≡ address_of v }
{
    CellAddress(byte(v))
}

fn with_next(instruction: Instruction, next: u32) -> Cell
    ensures { result ≡ with_next instruction next }
{
    Cell {
        instruction,
        next: address(next),
    }
}

// A cam setting in its stored form.
#[tactic(auto, unfolding(crate::specs::Numbers::cam_of, laws::specs::Tests::choose))]
fn cam(set: bool, position: u32) -> Instruction
    ensures { result ≡ cam_of set position }
{
    Instruction::CamSetting {
        set,
        position: Position(if set { position } else { 0 }),
    }
}

// An instruction of each code from its numbers. 01 and 31, and 02 and 32, are told apart by their
// variants, as the definitions name them; a function that is handed the variant would be no plainer.
fn indexed_ramp(f: u32, r: u32, n: u32, x: u32) -> Instruction
    ensures { result ≡ Instruction.IndexedRamp (byte_of f) (byte_of r) (is_one x) (steps_of n) }
{
    Instruction::IndexedRamp {
        frequency: byte(f),
        ramp: byte(r),
        x4: one(x),
        steps: Steps::from_bits(n),
    }
}

fn indexed_ramp_fine(f: u32, r: u32, n: u32, x: u32) -> Instruction
    ensures { result ≡ Instruction.IndexedRampFine (byte_of f) (byte_of r) (is_one x) (steps_of n) }
{
    Instruction::IndexedRampFine {
        frequency: byte(f),
        ramp: byte(r),
        x4: one(x),
        steps: Steps::from_bits(n),
    }
}

fn free_ramp(f: u32, r: u32, s: u32, x: u32) -> Instruction
    ensures { result ≡ Instruction.FreeRamp (byte_of f) (byte_of r) (is_one s) (is_one x) }
{
    Instruction::FreeRamp {
        frequency: byte(f),
        ramp: byte(r),
        backward: one(s),
        x4: one(x),
    }
}

fn free_ramp_fine(f: u32, r: u32, s: u32, x: u32) -> Instruction
    ensures { result ≡ Instruction.FreeRampFine (byte_of f) (byte_of r) (is_one s) (is_one x) }
{
    Instruction::FreeRampFine {
        frequency: byte(f),
        ramp: byte(r),
        backward: one(s),
        x4: one(x),
    }
}

fn indexed(f: u32, n: u32, x: u32) -> Instruction
    ensures { result ≡ Instruction.Indexed (byte_of f) (is_one x) (steps_of n) }
{
    Instruction::Indexed {
        frequency: byte(f),
        x4: one(x),
        steps: Steps::from_bits(n),
    }
}

fn indexed_fine(f: u32, n: u32, x: u32) -> Instruction
    ensures { result ≡ Instruction.IndexedFine (is_one x) (place_of f) (steps_of n) }
{
    Instruction::IndexedFine {
        x4: one(x),
        frequency: frequency::place(f),
        steps: Steps::from_bits(n),
    }
}

fn free(f: u32, s: u32, x: u32) -> Instruction
    ensures { result ≡ Instruction.Free (byte_of f) (is_one s) (is_one x) }
{
    Instruction::Free {
        frequency: byte(f),
        backward: one(s),
        x4: one(x),
    }
}

fn free_fine(f: u32, s: u32, x: u32) -> Instruction
    ensures { result ≡ Instruction.FreeFine (is_one s) (is_one x) (place_of f) }
{
    Instruction::FreeFine {
        backward: one(s),
        x4: one(x),
        frequency: frequency::place(f),
    }
}

fn zero_search(f: u32, r: u32, s: u32, l: u32) -> Instruction
    ensures { result ≡ Instruction.ZeroSearch (byte_of f) (byte_of r) (is_one s) (byte_of l) }
{
    Instruction::ZeroSearch {
        frequency: byte(f),
        ramp: byte(r),
        backward: one(s),
        slow: byte(l),
    }
}

fn delayed_stop(f: u32, r: u32, t: Travel, n: u32) -> Instruction
    ensures { result ≡ Instruction.DelayedStop (byte_of f) (byte_of r) t (steps_of n) }
{
    Instruction::DelayedStop {
        frequency: byte(f),
        ramp: byte(r),
        travel: t,
        steps: Steps::from_bits(n),
    }
}

fn output_setting(o: u32, v: u32) -> Instruction
    ensures { result ≡ Instruction.OutputSetting (record { 0 = byte_of o }) (is_one v) }
{
    Instruction::OutputSetting {
        output: OutputName(byte(o)),
        on: one(v),
    }
}

fn conditional_jump(i: u32, v: u32, e: u32) -> Instruction
    ensures { result ≡ ConditionalJump (record { 0 = byte_of i }) (is_one v) (address_of e) }
{
    Instruction::ConditionalJump {
        condition: ConditionName(byte(i)),
        on: one(v),
        jump: address(e),
    }
}

// The cell of a code and its numbers.
#[tactic(auto, unfolding(crate::specs::Numbers::cell_of, crate::specs::Numbers::cell_with, laws::specs::Tests::choose))]
pub fn cell_of(code: u32, v: &[u32; 6]) -> Cell
    ensures { result ≡ cell_of code v.now }
{
    let [a, b, c, d, e, f] = *v;
    match code {
        1 => with_next(indexed_ramp(a, b, c, d), e),
        31 => with_next(indexed_ramp_fine(a, b, c, d), e),
        2 => with_next(free_ramp(a, b, c, d), e),
        32 => with_next(free_ramp_fine(a, b, c, d), e),
        11 => with_next(indexed(a, b, c), d),
        21 => with_next(indexed_fine(a, b, c), d),
        12 => with_next(free(a, b, c), d),
        22 => with_next(free_fine(a, b, c), d),
        3 => with_next(zero_search(a, b, c, d), e),
        5 => with_next(delayed_stop(a, b, travel(one(c), one(e)), d), f),
        57 => with_next(cam(one(a), b), c),
        58 => with_next(output_setting(a, b), c),
        60 => with_next(Instruction::CounterReset, a),
        61 => with_next(Instruction::OpeningLoop { count: word(a) }, b),
        62 => with_next(Instruction::ClosingLoop { jump: address(a) }, b),
        63 => with_next(conditional_jump(a, b, c), d),
        65 => with_next(
            Instruction::TimeDelay {
                delay: Milliseconds(a),
            },
            b,
        ),
        70 => with_next(Instruction::CurrentSetting { on: one(a) }, b),
        69 => with_next(Instruction::Recovery, 0),
        _ => with_next(Instruction::Null, a),
    }
}

// Whether a number is one of the step frequencies.
fn in_table(v: u32) -> bool
    ensures { result ≡ eqb (hertz_of (place_of v)) v }
{
    frequency::place(v).hertz() as u32 == v
}

// Whether the cell of a code and its numbers holds all of them, none cut: then they are its own
// numbers. It is told from the numbers, since making the cell first costs more.
pub fn holds_numbers(code: u32, v: &[u32; 6]) -> bool
    ensures { result ≡ same_numbers (numbers_of (cell_of code v.now)) v.now }
{
    let [a, b, c, d, e, f] = *v;
    // Past a row's last number there are only zeros.
    let no_f = f == 0;
    let no_e = (e == 0) & no_f;
    let no_d = (d == 0) & no_e;
    let no_c = (c == 0) & no_d;
    let no_b = (b == 0) & no_c;
    match code {
        1 | 31 => (a < 256) & (b < 256) & (d < 2) & (e < 256) & no_f,
        2 | 32 => (a < 256) & (b < 256) & (c < 2) & (d < 2) & (e < 256) & no_f,
        11 => (a < 256) & (c < 2) & (d < 256) & no_e,
        21 => in_table(a) & (c < 2) & (d < 256) & no_e,
        12 => (a < 256) & (b < 2) & (c < 2) & (d < 256) & no_e,
        22 => in_table(a) & (b < 2) & (c < 2) & (d < 256) & no_e,
        3 => (a < 256) & (b < 256) & (c < 2) & (d < 256) & (e < 256) & no_f,
        5 => (a < 256) & (b < 256) & (c < 2) & (e < 2) & (f < 256),
        57 => (a < 2) & ((a == 1) | (b == 0)) & (c < 256) & no_d,
        58 => (a < 256) & (b < 2) & (c < 256) & no_d,
        60 => (a < 256) & no_b,
        61 => (a < 65536) & (b < 256) & no_c,
        62 => (a < 256) & (b < 256) & no_c,
        63 => (a < 256) & (b < 2) & (c < 256) & (d < 256) & no_e,
        65 => (b < 256) & no_c,
        70 => (a < 2) & (b < 256) & no_c,
        69 => (a == 0) & no_b,
        _ => (a < 256) & no_b,
    }
}

// The instruction set: the 20 codes of 01, "Instructions", and a program cell.
#![tactic(auto)]

use frequency::Frequency;
use units::{CellAddress, Milliseconds, Position, Steps};

pub mod adding;
pub mod code;
pub mod numbers;
pub mod run;
pub mod sound;
pub mod text;
pub mod ways;

// An output that 58 sets: its place in O0 to O3, FC, F0 to F7.
#[derive(Clone, Copy)]
pub struct OutputName(pub u8);

// What 63 tests: its place in I0 to I2, PX, S0 to S3, F0 to F7.
#[derive(Clone, Copy)]
pub struct ConditionName(pub u8);

// The direction and the multiplier of a 05 in one byte, so that an instruction has 8.
#[derive(Clone, Copy)]
pub enum Travel {
    Forward,
    ForwardX4,
    Backward,
    BackwardX4,
}

// The manual's instructions, small fields first. A run's frequency is in thousands of Hz for 01,
// 02, 03 and 05, in hundreds for 31, 32, 11, 12 and the slow part of 03.
#[derive(Clone, Copy)]
pub enum Instruction {
    // 00
    Null,
    // 01
    IndexedRamp {
        frequency: u8,
        ramp: u8,
        x4: bool,
        steps: Steps,
    },
    // 31
    IndexedRampFine {
        frequency: u8,
        ramp: u8,
        x4: bool,
        steps: Steps,
    },
    // 02
    FreeRamp {
        frequency: u8,
        ramp: u8,
        backward: bool,
        x4: bool,
    },
    // 32
    FreeRampFine {
        frequency: u8,
        ramp: u8,
        backward: bool,
        x4: bool,
    },
    // 11
    Indexed {
        frequency: u8,
        x4: bool,
        steps: Steps,
    },
    // 21
    IndexedFine {
        x4: bool,
        frequency: Frequency,
        steps: Steps,
    },
    // 12
    Free {
        frequency: u8,
        backward: bool,
        x4: bool,
    },
    // 22
    FreeFine {
        backward: bool,
        x4: bool,
        frequency: Frequency,
    },
    // 03
    ZeroSearch {
        frequency: u8,
        ramp: u8,
        backward: bool,
        slow: u8,
    },
    // 05
    DelayedStop {
        frequency: u8,
        ramp: u8,
        travel: Travel,
        steps: Steps,
    },
    // 57
    CamSetting {
        set: bool,
        position: Position,
    },
    // 58
    OutputSetting {
        output: OutputName,
        on: bool,
    },
    // 60
    CounterReset,
    // 61
    OpeningLoop {
        count: u16,
    },
    // 62
    ClosingLoop {
        jump: CellAddress,
    },
    // 63
    ConditionalJump {
        condition: ConditionName,
        on: bool,
        jump: CellAddress,
    },
    // 65
    TimeDelay {
        delay: Milliseconds,
    },
    // 69
    Recovery,
    // 70
    CurrentSetting {
        on: bool,
    },
}

// An instruction and the cell after it; 000 ends the program. A 69 has no next, held as 000.
#[derive(Clone, Copy)]
pub struct Cell {
    pub instruction: Instruction,
    pub next: CellAddress,
}

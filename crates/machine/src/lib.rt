// The record of one drive as plain data: small state apart from the 131 program cells. Exactly the fields that 01,
// "What a drive holds", lists; none is hidden. The definitions of 01 over it are in specs/.
#![tactic(auto)]

use instruction::Cell;
use units::{CellAddress, DriveAddress, Milliseconds, Position, Steps};

pub mod answers;
pub mod codes;
pub mod commands;
pub mod theorems;

// 01: "RS one of D0 to D3, B0 to B3".
#[derive(Clone, Copy)]
pub enum Resolution {
    D0,
    D1,
    D2,
    D3,
    B0,
    B1,
    B2,
    B3,
}

#[derive(Clone, Copy)]
pub struct Presets {
    // AD
    pub address: DriveAddress,
    // IN
    pub current: u8,
    // RS
    pub resolution: Resolution,
    // ES: ST starts a program only while input ES is off.
    pub interlock: bool,
    // CM: 0 is relative, 1 absolute.
    pub absolute: bool,
}

// 01: "cam". A mark and a number, and no Option: Demand 1 is of every record, an unset cam with a
// position too, and `cam_sound` tells it from a sound one.
#[derive(Clone, Copy)]
pub struct Cam {
    pub set: bool,
    pub position: Position,
}

impl Cam {
    pub const UNSET: Self = Self {
        set: false,
        position: Position(0),
    };
}

// 01: "error code and cell". No Option of an error enum: Demand 1 is of every record, a code that no
// error has too, and `fault_sound` tells it from a sound one.
#[derive(Clone, Copy)]
pub struct Fault {
    pub code: u8,
    pub cell: CellAddress,
}

impl Fault {
    pub const NONE: Self = Self {
        code: 0,
        cell: CellAddress(0),
    };
}

// 01's rest: nothing, steps or milliseconds, never one for the other. Nothing is its only zero.
#[derive(Clone, Copy)]
pub enum Remaining {
    Nothing,
    Counted(Steps),
    Timed(Milliseconds),
}

// 01: "interrupted record (cell, rest, loop count)". Cell 000: empty. No Option: Demand 1 is of every
// record, an empty one with a loop count too, and `suspended_sound` tells it from a sound one.
#[derive(Clone, Copy)]
pub struct Suspended {
    pub cell: CellAddress,
    pub remaining: Remaining,
    pub loops: u16,
}

impl Suspended {
    // 01: "an empty record is three zeros".
    pub const EMPTY: Self = Self {
        cell: CellAddress(0),
        remaining: Remaining::Nothing,
        loops: 0,
    };
}

// 01: "Phases". The last five are a run under way.
#[derive(Clone, Copy)]
pub enum Phase {
    Waiting,
    Delay,
    Run,
    Braking,
    Slowing,
    EmergencySlowing,
    BackOff,
}

// 01: "While busy also: present cell, phase, rest, loop count, at-speed mark." Cell 000: idle. No
// Option, as above: `resting_sound` asks that the other four are zero then.
#[derive(Clone, Copy)]
pub struct Running {
    pub cell: CellAddress,
    pub phase: Phase,
    pub remaining: Remaining,
    pub loops: u16,
    pub at_speed: bool,
}

#[derive(Clone, Copy)]
pub struct State {
    pub presets: Presets,
    pub position: Position,
    // I0, I1, I2, PX, S0 to S3, ST, ES, EE
    pub inputs: [bool; 11],
    // O0 to O3, FC, F0 to F7, CU
    pub outputs: [bool; 14],
    pub cam: Cam,
    pub fault: Fault,
    pub suspended: Suspended,
    pub running: Running,
}

impl State {
    // The places of the inputs that a rule of 01 names; S1 to S3 follow S0.
    pub const PX: usize = 3;

    pub const S0: usize = 4;

    pub const ST: usize = 8;

    pub const ES: usize = 9;

    pub const EE: usize = 10;

    // The places of the outputs that a rule of 01 names; F1 to F7 follow F0.
    pub const O3: usize = 3;

    pub const FC: usize = 4;

    pub const F0: usize = 5;

    pub const CU: usize = 13;
}

// The whole record of a drive. Cell 100 stands at place 0.
#[derive(Clone, Copy)]
pub struct Machine {
    pub state: State,
    pub cells: [Cell; 131],
}

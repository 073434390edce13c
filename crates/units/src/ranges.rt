// The greatest numbers that an instruction names and that a rest and a loop count reach.
use crate::{Milliseconds, Steps};

// 01: "61 nnn (1 to 65,535)"; "a loop count is at most 65,535".
pub const LOOP_LIMIT: u16 = 65_535;

impl Steps {
    // 01: "n is ±nnn within 8,388,607 each way".
    pub const LIMIT: i32 = 8_388_607;

    // 01: "a rest is within 33,554,428 either way".
    pub const REMAINING_LIMIT: i32 = 33_554_428;
}

impl Milliseconds {
    // 02: "Code 65 takes 0 to 8,388,607 milliseconds".
    pub const DELAY_LIMIT: u32 = 8_388_607;

    // The same rest, of a delay.
    pub const REMAINING_LIMIT: u32 = Steps::REMAINING_LIMIT as u32;
}

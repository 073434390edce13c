// What an operation hands back.
use units::{Milliseconds, Steps};

// 01: "always with IN, CU and FC".
#[derive(Clone, Copy)]
pub struct BoardSignals {
    pub current: u8,
    pub powered: bool,
    pub fc: bool,
}

// 01: "the order to the board".
#[derive(Clone, Copy)]
pub enum BoardOrder {
    Stand(BoardSignals),
    Slow(BoardSignals),
    Run {
        signals: BoardSignals,
        backward: bool,
        hertz: u32,
        ramp: u8,
        remaining: Steps,
    },
}

// How a wait ended.
#[derive(Clone, Copy)]
pub enum End {
    Idle,
    Moving,
    Spent,
}

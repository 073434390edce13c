// The sum of what the calls showed: each call moves it, and so does their order.
use cellmap::CellMap;
use drive::Drive;
use lines::gathering::front;
use machine::answers::BoardOrder;
use machine::{Remaining, State};
use totals::results::{Refusal, Sums};
use units::NetSteps;

pub fn added(sum: u32, seen: u32) -> u32 {
    ((sum as u64 * 31 + seen as u64) % 1_000_003) as u32
}

// The low byte of a length, above another byte.
fn length_seen(length: usize) -> u16 {
    (length % 256) as u16 * 256
}

// An answer's length and one of its bytes.
pub fn answer_seen(length: usize, buffer: &[u8; 64]) -> u32 {
    u32::from(length_seen(length)) + u32::from(buffer[10])
}

// An answer's length and the last byte before its end.
pub fn last_seen(length: usize, buffer: &[u8; 64]) -> u32 {
    let last = match front(buffer, length) {
        [.., last, _] => *last,
        _ => 0,
    };
    u32::from(length_seen(length)) + u32::from(last)
}

fn remaining_bits(remaining: Remaining) -> u32 {
    match remaining {
        Remaining::Nothing => 0,
        Remaining::Counted(steps) => steps.bits(),
        Remaining::Timed(delay) => delay.0,
    }
}

// What an event showed: its refusal's number, 0 for none, and, of the state after it, I0 and what a
// program changes.
pub fn seen(number: u8, state: State) -> u32 {
    let running = state.running;
    let shown = number as u32 + state.inputs[0] as u32;
    let place = running.cell.0 as u32 + running.loops as u32;
    remaining_bits(running.remaining).wrapping_add(shown + place)
}

pub fn order_seen(order: BoardOrder) -> u32 {
    match order {
        BoardOrder::Stand(_) => 1,
        BoardOrder::Slow(_) => 2,
        BoardOrder::Run {
            signals,
            hertz,
            remaining,
            ..
        } => remaining
            .bits()
            .wrapping_add(hertz)
            .wrapping_add(signals.current as u32),
    }
}

// An image's length and its IN.
pub fn image_seen(length: usize, buffer: &[u8; 2048]) -> u32 {
    (length % 65536) as u32 * 256 + buffer[1] as u32
}

// Of a loaded drive IN, and the cell after the first.
pub fn loaded_seen(drive: Drive) -> u32 {
    let machine = drive.machine;
    machine.state.presets.current as u32 + machine.cells[0].next.0 as u32
}

// An answer's length, and whether cells 116 and 230 are used.
pub fn map_seen(length: usize, used: &CellMap) -> u32 {
    u32::from(length_seen(length)) + u32::from(used[16]) + 2 * u32::from(used[130])
}

fn low_bits(net: NetSteps) -> u32 {
    (net.0 & 0xffff_ffff) as u32
}

// 32 bits of the net steps, then the milliseconds of delays.
pub fn totals_seen(sum: u32, totals: Result<Sums, Refusal>) -> u32 {
    match totals {
        Ok(sums) => added(added(sum, low_bits(sums.steps)), sums.delay.0),
        Err(refusal) => added(sum, refusal.number() as u32),
    }
}

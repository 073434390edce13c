// The order to the board and the outputs, into a buffer.
ghost use Rattle.std.specs.Prelude.{◌≡◌, ◌+◌, ◌≤◌, length};
ghost use Rattle.laws.specs.Writing.{Put};
ghost use Rattle.seen.specs.Bytes.{bits_of, signal_bits, standing, parts_of, parts_bytes, shown_bytes};

use crate::numbers::{put_byte, put_number};
use machine::answers::{BoardOrder, BoardSignals};

// The parts of an order, each a number. Those that only a run has are 0 in the others.
#[derive(Clone, Copy)]
pub struct Parts {
    pub kind: u8,
    pub current: u8,
    pub signals: u8,
    pub ramp: u8,
    pub hertz: u32,
    pub remaining: u32,
}

// CU in bit 0, FC in bit 1, a run backward in bit 2.
#[tactic(auto, unfolding(crate::specs::Bytes::signal_bits, laws::specs::Tests::choose))]
fn signal_bits(signals: BoardSignals, backward: bool) -> u8
    ensures { result ≡ signal_bits signals backward }
{
    let powered: u8 = if signals.powered { 1 } else { 0 };
    let fc: u8 = if signals.fc { 2 } else { 0 };
    let back: u8 = if backward { 4 } else { 0 };
    powered + fc + back
}

// An order in which nothing runs.
fn standing(kind: u8, signals: BoardSignals) -> Parts
    ensures { result ≡ standing kind signals }
{
    Parts {
        kind,
        current: signals.current,
        signals: signal_bits(signals, false),
        ramp: 0,
        hertz: 0,
        remaining: 0,
    }
}

#[tactic(auto, unfolding(crate::specs::Bytes::parts_of))]
fn parts_of(order: BoardOrder) -> Parts
    ensures { result ≡ parts_of order }
{
    match order {
        BoardOrder::Stand(signals) => standing(0, signals),
        BoardOrder::Slow(signals) => standing(1, signals),
        BoardOrder::Run {
            signals,
            backward,
            hertz,
            ramp,
            remaining,
        } => Parts {
            kind: 2,
            current: signals.current,
            signals: signal_bits(signals, backward),
            ramp,
            hertz,
            remaining: remaining.bits(),
        },
    }
}

// The outputs as bits, the first in bit 0.
fn output_bits(outputs: [bool; 14]) -> u32
    ensures { result ≡ bits_of outputs }
{
    let mut bits: u32 = 0;
    for i in (0..14).rev() {
        bits = 2 * bits + if outputs[i] { 1 } else { 0 };
    }
    bits
}

// The parts of an order: 12 bytes.
fn put_parts(buffer: &mut [u8], at: usize, parts: Parts) -> usize
    requires { at + 12 ≤ length buffer.old }
    ensures { Put buffer.old buffer.new (parts_bytes parts) at result }
{
    let a = put_byte(buffer, at, parts.kind);
    let b = put_byte(buffer, a, parts.current);
    let c = put_byte(buffer, b, parts.signals);
    let d = put_byte(buffer, c, parts.ramp);
    let e = put_number(buffer, d, parts.hertz);
    put_number(buffer, e, parts.remaining)
}

// The order and the outputs: 16 bytes.
pub fn put_shown(buffer: &mut [u8], at: usize, order: BoardOrder, outputs: [bool; 14]) -> usize
    requires { at + 16 ≤ length buffer.old }
    ensures { Put buffer.old buffer.new
        (shown_bytes (record { order = order; outputs = outputs })) at result }
{
    let next = put_parts(buffer, at, parts_of(order));
    put_number(buffer, next, output_bits(outputs))
}

// The order to the board and the end of a wait, as text.
ghost use Rattle.std.specs.Prelude.{◌≡◌};
ghost use Rattle.lines.specs.Gathering.{Gathered};
ghost use Rattle.observed.specs.Orders.{flag_text, signals_text, field_text, direction_text};
ghost use Rattle.observed.specs.Orders.{run_text, order_text, end_text};

use lines::gathering::{gather, gather_number, gather_signed};
use machine::answers::{BoardOrder, BoardSignals, End};
use units::Steps;

// `,1` or `,0`.
#[tactic(auto, unfolding(crate::specs::Orders::flag_text, laws::specs::Text::bytes))]
fn gather_flag(line: &mut [u8], n: usize, on: bool) -> usize
    ensures { Gathered line.old n (flag_text on) line.new result }
{
    gather(line, n, if on { b",1" } else { b",0" })
}

// `1,0,0`: IN, CU and FC, which every order has.
fn gather_signals(line: &mut [u8], n: usize, signals: BoardSignals) -> usize
    ensures { Gathered line.old n (signals_text signals) line.new result }
{
    let a = gather_number(line, n, signals.current as u32);
    let b = gather_flag(line, a, signals.powered);
    gather_flag(line, b, signals.fc)
}

// `9000,`.
pub fn gather_field(line: &mut [u8], n: usize, value: u32) -> usize
    ensures { Gathered line.old n (field_text value) line.new result }
{
    let a = gather_number(line, n, value);
    gather(line, a, b",")
}

#[tactic(auto, unfolding(crate::specs::Orders::direction_text, laws::specs::Text::bytes))]
fn gather_direction(line: &mut [u8], n: usize, backward: bool) -> usize
    ensures { Gathered
        line.old n (direction_text backward) line.new result }
{
    gather(line, n, if backward { b"run:-," } else { b"run:+," })
}

// `run:+,9000,15,+31754,`: direction, Hz, ramp code and rest.
fn gather_run(
    line: &mut [u8],
    n: usize,
    backward: bool,
    hertz: u32,
    ramp: u8,
    remaining: Steps,
) -> usize
    ensures { Gathered
        line.old n (run_text backward hertz ramp remaining) line.new result }
{
    let a = gather_direction(line, n, backward);
    let b = gather_field(line, a, hertz);
    let c = gather_field(line, b, ramp as u32);
    let d = gather_signed(line, c, remaining.bits());
    gather(line, d, b",")
}

// `stand:1,0,0`, `slow:1,0,0` or `run:+,9000,15,+31754,1,0,0`.
pub fn gather_order(line: &mut [u8], n: usize, order: BoardOrder) -> usize
    ensures { Gathered line.old n (order_text order) line.new result }
{
    match order {
        BoardOrder::Stand(signals) => {
            let next = gather(line, n, b"stand:");
            gather_signals(line, next, signals)
        }
        BoardOrder::Slow(signals) => {
            let next = gather(line, n, b"slow:");
            gather_signals(line, next, signals)
        }
        BoardOrder::Run {
            signals,
            backward,
            hertz,
            ramp,
            remaining,
        } => {
            let next = gather_run(line, n, backward, hertz, ramp, remaining);
            gather_signals(line, next, signals)
        }
    }
}

// `idle`, `moving` or `spent`.
#[tactic(auto, unfolding(crate::specs::Orders::end_text, laws::specs::Text::bytes))]
pub fn gather_end(line: &mut [u8], n: usize, end: End) -> usize
    ensures { Gathered line.old n (end_text end) line.new result }
{
    match end {
        End::Idle => gather(line, n, b"idle"),
        End::Moving => gather(line, n, b"moving"),
        End::Spent => gather(line, n, b"spent"),
    }
}

// Net steps as text: with their sign, also beyond 32 bits.
ghost use Rattle.std.specs.Prelude.{◌≡◌, ◌^◌, ◌<◌, unsigned_abs};
ghost use Rattle.decimal.specs.Printing.{digits};
ghost use Rattle.lines.specs.Gathering.{Gathered};
ghost use Rattle.observed.specs.Nets.{sign_text, wide_text, net_text};

use decimal::print::put_digits;
use lines::gathering::{gather, gather_number};
use units::NetSteps;

const BILLION: u64 = 1_000_000_000;

fn gather_sign(line: &mut [u8], n: usize, net: NetSteps) -> usize
    ensures { Gathered line.old n (sign_text net.0) line.new result }
{
    if net.0 < 0 {
        return gather(line, n, b"-");
    }
    gather(line, n, b"+")
}

// How many steps they are, either way.
fn size_of(net: NetSteps) -> u64
    ensures { result ≡ unsigned_abs net.0 }
{
    net.0.unsigned_abs()
}

// Nine digits, with leading zeros.
fn gather_nine(line: &mut [u8], n: usize, value: u32) -> usize
    requires { value < 10 ^ 9 }
    ensures { Gathered line.old n (digits 9 value) line.new result }
{
    let mut text = [0u8; 9];
    put_digits(&mut text, 0, value, 9);
    gather(line, n, &text)
}

// A number without leading zeros, by nine digits at a time.
fn gather_wide(line: &mut [u8], n: usize, value: u64) -> usize
    ensures { Gathered line.old n (wide_text value) line.new result }
{
    if value < BILLION {
        return gather_number(line, n, value as u32);
    }
    let next = gather_wide(line, n, value / BILLION);
    gather_nine(line, next, (value % BILLION) as u32)
}

// `+18`, `-4395630068`.
pub fn gather_net(line: &mut [u8], n: usize, net: NetSteps) -> usize
    ensures { Gathered line.old n (net_text net.0) line.new result }
{
    let next = gather_sign(line, n, net);
    gather_wide(line, next, size_of(net))
}

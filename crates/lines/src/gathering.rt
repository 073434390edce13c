// Bytes put behind each other in a lent buffer, and its front. What does not fit is cut.
ghost use Rattle.std.specs.Prelude.{◌≡◌, take};
ghost use Rattle.decimal.specs.Printing.{decimal, signed};
ghost use Rattle.lines.specs.Gathering.{Gathered, bit_text};

use decimal::print::{put_decimal, put_signed};

// Puts a piece behind the first n bytes of a line, as much of it as the line has place for, and
// hands back how many bytes there are then.
pub fn gather(line: &mut [u8], n: usize, piece: &[u8]) -> usize
    ensures { Gathered line.old n piece.now line.new result }
{
    let held = n.min(line.len());
    let more = (line.len() - held).min(piece.len());
    scan::copy(&piece[..more], &mut line[held..]);
    held + more
}

// The first n bytes of a line, or all.
pub fn front(line: &[u8], n: usize) -> &[u8]
    ensures { result.now ≡ take n line.now }
{
    &line[..n.min(line.len())]
}

// Puts a number behind the first n bytes of a line.
pub fn gather_number(line: &mut [u8], n: usize, value: u32) -> usize
    ensures { Gathered line.old n (decimal value) line.new result }
{
    let mut text = [0u8; 10];
    let length = put_decimal(&mut text, 0, value);
    gather(line, n, front(&text, length))
}

// The same of a number of 32 bits in two's complement, with its sign.
pub fn gather_signed(line: &mut [u8], n: usize, bits: u32) -> usize
    ensures { Gathered line.old n (signed bits) line.new result }
{
    let mut text = [0u8; 11];
    let length = put_signed(&mut text, 0, bits);
    gather(line, n, front(&text, length))
}

// The same of a bit, as a digit.
#[tactic(auto, unfolding(crate::specs::Gathering::bit_text))]
pub fn gather_bit(line: &mut [u8], n: usize, on: bool) -> usize
    ensures { Gathered line.old n (bit_text on) line.new result }
{
    gather(line, n, if on { b"1" } else { b"0" })
}

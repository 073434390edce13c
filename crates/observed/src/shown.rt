// Bytes as text: those that print as they are and others in hexadecimal, or all in hexadecimal.
ghost use Rattle.std.specs.Prelude.{◌≡◌, ◌<◌};
ghost use Rattle.lines.specs.Gathering.{Gathered};
ghost use Rattle.observed.specs.Shown.{is_plain, digit, shown_byte, shown};
ghost use Rattle.observed.specs.Shown.{pair_text, hex_text};

use lines::gathering::gather;

// 33 to 126, except the backslash.
#[tactic(auto, unfolding(crate::specs::Shown::is_plain, laws::specs::Tests::both))]
fn is_plain(byte: u8) -> bool
    ensures { result ≡ is_plain byte }
{
    (33..=126).contains(&byte) && byte != b'\\'
}

// A digit below 16, in lower case.
#[tactic(auto, unfolding(crate::specs::Shown::digit, laws::specs::Tests::choose))]
pub fn digit_of(value: u8) -> u8
    requires { value < 16 }
    ensures { result ≡ digit value }
{
    if value < 10 {
        b'0' + value
    } else {
        b'a' + value - 10
    }
}

// A byte as it is, or as `\xNN`.
#[tactic(auto, unfolding(crate::specs::Shown::shown_byte, laws::specs::Tests::choose))]
fn gather_byte(line: &mut [u8], n: usize, byte: u8) -> usize
    ensures { Gathered line.old n (shown_byte byte) line.new result }
{
    if is_plain(byte) {
        return gather(line, n, &[byte]);
    }
    let four = [b'\\', b'x', digit_of(byte / 16), digit_of(byte % 16)];
    gather(line, n, &four)
}

pub fn gather_shown(line: &mut [u8], n: usize, bytes: &[u8]) -> usize
    ensures { Gathered
        line.old n (shown bytes.now) line.new result }
{
    let mut next = n.min(line.len());
    for byte in bytes {
        next = gather_byte(line, next, *byte);
    }
    next
}

// A byte as two digits.
#[tactic(auto, unfolding(crate::specs::Shown::pair_text))]
fn gather_pair(line: &mut [u8], n: usize, byte: u8) -> usize
    ensures { Gathered line.old n (pair_text byte) line.new result }
{
    let two = [digit_of(byte / 16), digit_of(byte % 16)];
    gather(line, n, &two)
}

// The loop of `gather_shown` again: one loop over what to do with a byte would need clauses on a
// closure, which are longer than both.
pub fn gather_hex(line: &mut [u8], n: usize, bytes: &[u8]) -> usize
    ensures { Gathered
        line.old n (hex_text bytes.now) line.new result }
{
    let mut next = n.min(line.len());
    for byte in bytes {
        next = gather_pair(line, next, *byte);
    }
    next
}

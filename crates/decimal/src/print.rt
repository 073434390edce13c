// Printing numbers into a lent buffer. Each writer hands back the place after what it wrote.
ghost use Rattle.std.specs.Prelude.{◌≡◌, ◌+◌, ◌*◌, ◌^◌, ◌<◌, ◌≤◌, length};
ghost use Rattle.laws.specs.Writing.{Put};
ghost use Rattle.decimal.specs.Printing.{Split, taken_away, digits, width_from, width};
ghost use Rattle.decimal.specs.Printing.{decimal, signed};

static POWERS: [u32; 10] = [
    1, 10, 100, 1000, 10000, 100000, 1000000, 10000000, 100000000, 1000000000,
];

// A digit as a byte, and what is left of the number.
#[derive(Clone, Copy)]
pub struct Digit {
    pub byte: u8,
    pub left: u32,
}

// So many of a power, m together, taken away and counted, where they are within what is left.
#[tactic(auto, unfolding(crate::specs::Printing::taken_away, laws::specs::Tests::choose))]
fn take_away(d: Digit, m: u32, count: u8) -> Digit
    requires { d.byte + count < 256 }
    ensures { result ≡ taken_away d m count }
{
    if d.left < m {
        return d;
    }
    Digit {
        byte: d.byte + count,
        left: d.left - m,
    }
}

// The highest digit of a number below ten times a power: four of the power are taken away, four
// again, two and one. That is four tests for every digit, where one at a time takes up to ten.
fn digit_of(n: u32, p: u32) -> Digit
    requires { (0 < p) × ((p ≤ 10 ^ 9) × (n < 10 * p)) }
    ensures { Split n p result }
{
    let two = p + p;
    let four = two + two;
    let whole = Digit {
        byte: b'0',
        left: n,
    };
    let first = take_away(whole, four, 4);
    let second = take_away(first, four, 4);
    let third = take_away(second, two, 2);
    take_away(third, p, 1)
}

// The w digits of n, with leading zeros.
pub fn put_digits(buf: &mut [u8], at: usize, n: u32, w: usize) -> usize
    requires { (w ≤ 10) × ((n < 10 ^ w) × (at + w ≤ length buf.old)) }
    ensures { Put buf.old buf.new (digits w n) at result }
{
    if w == 0 {
        return at;
    }
    let mut i = at;
    let mut left = n;
    for k in (1..w).rev() {
        let d = digit_of(left, POWERS[k]);
        buf[i] = d.byte;
        left = d.left;
        i += 1;
    }
    buf[i] = b'0' + left as u8;
    i + 1
}

// Which of the five widths from low on a number has, if it has one of them.
fn width_among(n: u32, low: usize) -> usize
    requires { low ≤ 6 }
    ensures { result ≡ width_from 4 low n }
{
    if n < POWERS[low + 1] {
        if n < POWERS[low] {
            return low;
        }
        return low + 1;
    }
    if n < POWERS[low + 2] {
        return low + 2;
    }
    if n < POWERS[low + 3] {
        return low + 3;
    }
    low + 4
}

// How many digits n has. At most four of the nine powers are compared.
fn width_of(n: u32) -> usize
    ensures { result ≡ width n }
{
    if n < POWERS[5] {
        return width_among(n, 1);
    }
    width_among(n, 6)
}

// A number without leading zeros.
pub fn put_decimal(buf: &mut [u8], at: usize, n: u32) -> usize
    requires { at + length (decimal n) ≤ length buf.old }
    ensures { Put buf.old buf.new (decimal n) at result }
{
    put_digits(buf, at, n, width_of(n))
}

// A number of 32 bits in two's complement, always with its sign.
pub fn put_signed(buf: &mut [u8], at: usize, bits: u32) -> usize
    requires { at + length (signed bits) ≤ length buf.old }
    ensures { Put buf.old buf.new (signed bits) at result }
{
    if bits < 0x8000_0000 {
        buf[at] = b'+';
        put_decimal(buf, at + 1, bits)
    } else {
        buf[at] = b'-';
        put_decimal(buf, at + 1, (0x1_0000_0000 - bits as u64) as u32)
    }
}

// Numbers as groups of seven bits, lowest first, bit 7 set on all but the last.
ghost use Rattle.std.specs.Prelude.{◌≡◌, ◌+◌, ◌≤◌, length};
ghost use Rattle.laws.specs.Writing.{Put};
ghost use Rattle.varint.specs.Groups.{groups, number_at};

// A number and the place after it.
#[derive(Clone, Copy)]
pub struct Reading {
    pub value: u32,
    pub next: usize,
}

// The groups of a number from a place on; hands back the place after them.
pub fn put_number(buf: &mut [u8], at: usize, n: u32) -> usize
    requires { at + length (groups n) ≤ length buf.old }
    ensures { Put buf.old buf.new (groups n) at result }
{
    let mut i = at;
    let mut left = n;
    while 128 <= left {
        buf[i] = (128 + left % 128) as u8;
        left /= 128;
        i += 1;
    }
    buf[i] = left as u8;
    i + 1
}

// The number at a place, if it is whole, in its shortest form and not too large. Most have one
// group, read at once.
pub fn read_number(s: &[u8], from: usize) -> Option<Reading>
    ensures { result ≡ number_at s.now from }
{
    let b = *s.get(from)?;
    if b < 128 {
        return Some(Reading {
            value: u32::from(b),
            next: from + 1,
        });
    }
    read_groups(s, from)
}

// The same, one group after another.
fn read_groups(s: &[u8], from: usize) -> Option<Reading>
    requires { from ≤ length s.now }
    ensures { result ≡ number_at s.now from }
{
    let mut value: u64 = 0;
    let mut weight: u64 = 1;
    for k in 0..5 {
        let b = *s.get(from + k)?;
        if b < 128 {
            if b == 0 && 0 < k {
                return None;
            }
            value += u64::from(b) * weight;
            return Some(Reading {
                value: u32::try_from(value).ok()?,
                next: from + k + 1,
            });
        }
        value += u64::from(b - 128) * weight;
        weight *= 128;
    }
    None
}

// Rows of numbers by their outline: how many there are, and the place of the one with a sign. One
// loop writes them, another reads them into lent places.
ghost use Rattle.std.specs.Prelude.{◌≡◌, ◌≤◌};
ghost use Rattle.laws.specs.Writing.{Put};
ghost use Rattle.packed.specs.Layout.{laid, laid_read, parsed_as, Writable};

use varint::{groups, signs};

// The numbers of a row, zeros after them, and the place after it, as the definitions hold them.
#[derive(Clone, Copy)]
pub struct Row {
    pub values: [u32; 6],
    pub next: usize,
}

// The numbers of a row, from a place on; hands back the place after them.
pub fn put_row(buf: &mut [u8], from: usize, count: usize, signed: usize, values: &[u32; 6]) -> usize
    requires { Writable count signed values.now from buf.old }
    ensures { Put buf.old buf.new
        (laid count signed values.now) from result }
{
    let mut at = from;
    for (i, v) in values[..count].iter().enumerate() {
        let n = if i == signed {
            signs::fold_sign(*v)
        } else {
            *v
        };
        at = groups::put_number(buf, at, n);
    }
    at
}

// Reads the numbers of a row into six places, zeros after them; hands back the place after them.
// The places are lent, since numbers written one by one are slow to copy at once.
pub fn read_row(
    s: &[u8],
    from: usize,
    count: usize,
    signed: usize,
    values: &mut [u32; 6],
) -> Option<usize>
    requires { count ≤ 6 }
    ensures { parsed_as result values.new ≡ laid_read count signed s.now from }
{
    *values = [0; 6];
    let mut at = from;
    for (i, v) in values[..count].iter_mut().enumerate() {
        let read = groups::read_number(s, at)?;
        *v = if i == signed {
            signs::unfold_sign(read.value)
        } else {
            read.value
        };
        at = read.next;
    }
    Some(at)
}

// The map of used cells as a word: cells 100 to 230 from the highest bit on, 1 for a used cell,
// then one 0 bit, in 33 digits.
ghost use Rattle.std.specs.Prelude.{◌≤◌};

use crate::seen::Out;
use observed::shown::digit_of;

// The bit of a place; behind the last cell, 0.
fn bit(cells: &[bool], k: usize) -> u8
    ensures { result ≤ 1 }
{
    match cells.get(k) {
        Some(true) => 1,
        _ => 0,
    }
}

// What is seen of the map of a drive.
pub fn put_map(out: &mut Out, used: &[bool]) {
    out.put(b"- ");
    for four in used.chunks(4) {
        let high = 2 * bit(four, 0) + bit(four, 1);
        let low = 2 * bit(four, 2) + bit(four, 3);
        out.put(&[digit_of(4 * high + low)]);
    }
    out.put(b" - - -");
}

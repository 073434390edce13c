// A buffer filled from a reader, for programs that take a whole input of bounded length.
#![tactic(auto)]

ghost use Rattle.std.specs.Prelude.{◌≤◌, length};

use std::io::Read;

// Reads until the buffer is full or the input at its end; how many bytes came. No contract can say
// which bytes those are. A read that fails is an end.
pub fn fill<R: Read>(input: &mut R, space: &mut [u8]) -> usize
    ensures { result ≤ length space.old }
{
    let mut at = 0;
    // A `while`, since each read moves the place by as much as came.
    while at < space.len() {
        let n = input.read(&mut space[at..]).unwrap_or(0);
        if n == 0 {
            return at;
        }
        at += n;
    }
    at
}

// The console's strings, out of blocks of input.
ghost use Rattle.std.specs.Prelude.{◌≡◌, ◌≤◌, length};
ghost use Rattle.lines.specs.Strings.{Takes};

use crate::gathering::gather;

const CARRIAGE_RETURN: u8 = 13;

// What was taken of a block: how many bytes the string has then, and where to go on behind its byte
// 13, which is none where the block ends before it.
#[derive(Clone, Copy)]
pub struct Taken {
    pub length: usize,
    pub next: Option<usize>,
}

// Takes a block's bytes from a place on, up to the first 13 or the end, behind the n bytes that
// are there of the string.
pub fn take_string(block: &[u8], from: usize, string: &mut [u8], n: usize) -> Taken
    requires { (from ≤ length block.now) × (length string.old ≡ 65) }
    ensures { Takes block.now from string.old n string.new result }
{
    let end = scan::find(block, from, block.len(), CARRIAGE_RETURN);
    let length = gather(&mut string[..64], n, &block[from..end]);
    if end < block.len() {
        string[length] = CARRIAGE_RETURN;
        return Taken {
            length: length + 1,
            next: Some(end + 1),
        };
    }
    Taken { length, next: None }
}

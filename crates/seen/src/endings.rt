// The end of a wait, into a buffer.
ghost use Rattle.std.specs.Prelude.{◌≡◌, ◌+◌, ◌≤◌, length};
ghost use Rattle.laws.specs.Writing.{Put};
ghost use Rattle.seen.specs.Bytes.{end_number, ended_as, ending_bytes};

use crate::numbers::{put_byte, put_number};
use machine::answers::End;
use operations::results::Ending;

// The end of a wait, as a number.
#[tactic(auto, unfolding(crate::specs::Bytes::end_number))]
fn end_number(end: End) -> u8
    ensures { result ≡ end_number end }
{
    match end {
        End::Idle => 1,
        End::Moving => 2,
        End::Spent => 3,
    }
}

// The end of a wait and how many milliseconds it gave; zeros of one that was refused.
pub fn put_ending(buffer: &mut [u8], at: usize, ending: Option<Ending>) -> usize
    requires { at + 5 ≤ length buffer.old }
    ensures { Put buffer.old buffer.new (ending_bytes (ended_as ending)) at result }
{
    match ending {
        Some(ending) => {
            let begun = put_byte(buffer, at, end_number(ending.end));
            put_number(buffer, begun, ending.given.0)
        }
        None => {
            let begun = put_byte(buffer, at, 0);
            put_number(buffer, begun, 0)
        }
    }
}

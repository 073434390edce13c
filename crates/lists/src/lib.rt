// A list of calls as bytes, carried out in one call: the drive is checked once, the words follow one
// another, and what is seen of them is put behind each other in a lent buffer. docs/PROTOCOL.md has
// the form of both.
#![tactic(auto)]

ghost use Rattle.std.specs.Prelude.{◌≡◌};
ghost use Rattle.lists.specs.Performing.{performed, performed_as};

use drive::Drive;
use encoding::{Refusal, check};
use soundness::sound;

mod carrying;
mod giving;
mod telling;
pub mod theorems;

// Carries out a list of calls, each refused as it would be alone: how many bytes at the front of the
// buffer tell what is seen. An unsound drive, a list that is malformed and a buffer that has not room
// for all that can be seen are refused whole, and the drive and the buffer stay as they came.
pub fn perform(drive: &mut Drive, list: &[u8], buffer: &mut [u8]) -> Result<usize, Refusal>
    ensures { performed_as result buffer.new drive.new.machine ≡
        performed list.now buffer.old drive.old.machine }
{
    if !sound(drive.machine) {
        return Err(Refusal::Unsound);
    }
    check(list, buffer.len())?;
    let carried = carrying::carry(drive.machine, list, buffer);
    drive.machine = carried.machine;
    Ok(carried.written)
}

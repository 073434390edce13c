// An image into a lent buffer. It is made beside the buffer and copied whole, so that one too short
// for it stays as it is.
ghost use Rattle.std.specs.Prelude.{◌≡◌, ◌≤◌, length};
ghost use Rattle.laws.specs.Writing.{Put};
ghost use Rattle.machine.specs.Images.{image_of, written_into, buffer_written};
ghost use Rattle.image.specs.Results.{written_as};

use crate::presets;
use crate::presets::preset_numbers;
use crate::results::Refusal;
use drive::Drive;
use machine::Machine;
use packed::{cells, rows};
use soundness::sound;

// Cells 100 to 227.
pub const KEPT: usize = 128;

// Room for five numbers and 128 cells of seven numbers, each of at most five groups.
const SPACE: usize = 4608;

// The bytes of an image, from the front on; hands back how many there are.
fn put_image(space: &mut [u8], machine: Machine) -> usize
    requires { length (image_of machine) ≤ length space.old }
    ensures { Put space.old space.new (image_of machine) 0 result }
{
    let numbers = preset_numbers(machine.state.presets);
    let at = rows::put_row(space, 0, presets::COUNT, presets::NO_SIGN, &numbers);
    cells::put_cells(space, at, &machine.cells[..KEPT])
}

// Writes the image of a drive, idle or busy, to the front of a buffer; hands back its length.
pub fn write(drive: Drive, buffer: &mut [u8]) -> Result<usize, Refusal>
    ensures result_value { written_as result ≡ written_into buffer.old drive.machine }
    ensures buffer { buffer.new ≡
        buffer_written buffer.old drive.machine }
{
    let machine = drive.machine;
    if !sound(machine) {
        return Err(Refusal::Unsound);
    }
    let mut space = [0u8; SPACE];
    let length = put_image(&mut space, machine);
    if buffer.len() < length {
        return Err(Refusal::ShortBuffer);
    }
    scan::copy(&space[..length], buffer);
    Ok(length)
}

// A fresh drive from an image.
ghost use Rattle.std.specs.Prelude.{◌≡◌, Err, replicate};
ghost use Rattle.format.specs.Formats.{codes};
ghost use Rattle.packed.specs.Cells.{cells_from};
ghost use Rattle.machine.specs.Record.{null_cell};
ghost use Rattle.machine.specs.Soundness.{sound};
ghost use Rattle.machine.specs.Images.{image_cells, not_loaded, loaded_with, loaded_of};
ghost use Rattle.image.specs.Results.{made_of, loaded_as, handed};

use crate::presets;
use crate::presets::{preset_numbers, presets_from};
use crate::results::{Refusal, Refused};
use crate::writing::KEPT;
use drive::Drive;
use machine::{Machine, Presets};
use packed::{cells, rows};
use soundness::sound;
use units::DriveAddress;

// No drive has this address.
const NO_ADDRESS: u8 = 255;

// The drive with these presets and the cells from a place on, where nothing follows them.
fn with_cells(bytes: &[u8], at: usize, presets: Presets) -> Option<Drive>
    ensures { made_of result ≡ loaded_with sound bytes.now presets
        (cells_from codes image_cells bytes.now at 0 (replicate 131 null_cell)) }
{
    let fresh = Drive::fresh(presets.address).ok()?;
    let Machine {
        mut state,
        mut cells,
    } = fresh.machine;
    state.presets = presets;
    let end = cells::read_cells(bytes, at, &mut cells[..KEPT])?;
    let machine = Machine { state, cells };
    if end != bytes.len() {
        return None;
    }
    if !sound(machine) {
        return None;
    }
    Some(Drive { machine })
}

// The drive of an image, if the bytes are one.
fn drive_of(bytes: &[u8]) -> Option<Drive>
    ensures { made_of result ≡ loaded_of bytes.now }
{
    // Lent to the row, since numbers written one by one are slow to copy at once.
    let mut values = [0; 6];
    let at = rows::read_row(bytes, 0, presets::COUNT, presets::NO_SIGN, &mut values)?;
    let presets = presets_from(values);
    if preset_numbers(presets) != values {
        return None;
    }
    with_cells(bytes, at, presets)
}

// The refusal, and beside it a drive that every operation refuses.
fn refused() -> Refused
    ensures { Err result ≡ handed not_loaded }
{
    let drive = Drive::fresh(DriveAddress(NO_ADDRESS)).unwrap_or_else(|refused| refused.drive);
    Refused {
        refusal: Refusal::NotAnImage,
        drive,
    }
}

// Reads an image: a fresh drive with its presets and cells. Bytes that are not one image, whole and
// of a sound drive, are refused; the drive beside the refusal is one that every operation refuses.
pub fn read(bytes: &[u8]) -> Result<Drive, Refused>
    ensures result_value { loaded_as result ≡ loaded_of bytes.now }
    ensures drive { result ≡ handed (loaded_of bytes.now) }
{
    drive_of(bytes).ok_or_else(refused)
}

// The map of used cells, beside a drive: 02, Slip 5. `count` makes it for a drive, fresh, loaded or
// used; `string` is Drive::string, and brings the map up to date. Every other method of a drive
// leaves the memory alone, and so the map right.
#![tactic(auto)]

ghost use Rattle.std.specs.Prelude.{◌≡◌, length};
ghost use Rattle.machine.specs.Calls.{apply, next};
ghost use Rattle.machine.specs.Calls.Call.{SendString};
ghost use Rattle.machine.specs.Operations.{buffer_after};
ghost use Rattle.drive.specs.Results.{told_as, length_of};
ghost use Rattle.reachability.specs.Graph.{Counted, is_root};
ghost use Rattle.usage.specs.Updating.{place_in, Updated};

use cellmap::CellMap;
use drive::Drive;
use drive::results::{Refused, Told};
use naming::place_in;
use reachability::counting;
use ways::{has, loses};

mod naming;
pub mod theorems;
mod ways;

// The map of the cells that can be reached from cells 100 to 115, these included.
pub fn count(drive: &Drive, used: &mut CellMap)
    ensures { Counted drive.now.machine.cells is_root used.new }
{
    *used = counting::count(&drive.machine.cells);
}

// A string, with a buffer of at least 64 bytes lent for its answer, and the map of the drive. The map
// is counted anew where a way of a used cell is taken off, gains what the cell leads to where one is
// only added, and else is left alone.
pub fn string(
    drive: Drive,
    used: &mut CellMap,
    text: &[u8],
    buffer: &mut [u8],
) -> Result<Told, Refused>
    ensures buffer_after { told_as result buffer.new ≡
        apply (SendString text.now buffer.old) drive.machine }
    ensures length { length_of result ≡
        length (apply (SendString text.now buffer.old) drive.machine).answer }
    ensures buffer { buffer.new ≡
        buffer_after text.now buffer.old drive.machine }
    ensures map { Updated drive.machine.cells (next (SendString text.now buffer.old) drive.machine).cells
        (place_in text.now) used.old used.new }
{
    let at = place_in(text);
    if !has(used, at) {
        return drive.string(text, buffer);
    }
    let old = drive.machine.cells[at];
    let told = drive.string(text, buffer)?;
    let cells = &told.drive.machine.cells;
    let new = cells[at];
    if loses(old, new) {
        *used = counting::count(cells);
    } else if loses(new, old) {
        *used = counting::grow(cells, *used, at);
    }
    Ok(told)
}

// Totals before a start, as 02, Slip 2, describes them: the net steps and the milliseconds of
// delays of a program, from its start cell to 000. `along` is the operation.
#![tactic(auto)]

ghost use Rattle.std.specs.Prelude.{◌≡◌};
ghost use Rattle.totals.specs.Walk.{totals_of};
ghost use Rattle.totals.specs.Results.{totalled_as};

use drive::Drive;
use results::{Refusal, Sums};
use soundness::sound;
use units::CellAddress;

pub mod results;
pub mod theorems;
mod walk;

// The totals of the program that starts at a cell of a drive, idle or busy.
pub fn along(drive: &Drive, start: CellAddress) -> Result<Sums, Refusal>
    ensures { totalled_as result ≡ totals_of drive.now.machine start }
{
    let machine = drive.machine;
    if !sound(machine) {
        return Err(Refusal::Unsound);
    }
    if start.0 < Drive::FIRST {
        return Err(Refusal::NoCell);
    }
    if Drive::LAST < start.0 {
        return Err(Refusal::NoCell);
    }
    walk::totals_in(&machine.cells, start)
}

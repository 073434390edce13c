// The walk along next addresses.
ghost use Rattle.std.specs.Prelude.{◌≡◌, true, ◌≤◌, nat_abs};
ghost use Rattle.laws.specs.Tables.{every};
ghost use Rattle.fields.specs.Kinds.{valid};
ghost use Rattle.fields.specs.declared.kinds.Kind.TheVariants.{Next};
ghost use Rattle.instruction.specs.Soundness.{cell_sound};
ghost use Rattle.machine.specs.Soundness.{is_cell};
ghost use Rattle.totals.specs.Walk.{rows_of, followed, totals_in};
ghost use Rattle.totals.specs.Room.{Room, steps_limit};
ghost use Rattle.totals.specs.Results.{totalled_as, walked_as};

use crate::results::{Refusal, Sums};
use cellmap::CellMap;
use instruction::Cell;
use units::{CellAddress, Milliseconds, NetSteps};

// How a walk ends: at 000, or where it is refused.
#[derive(Clone, Copy)]
enum Walked {
    Whole,
    MetTwice,
    OtherCode,
}

// Follows the next addresses from one on, with the cells met before it, and adds to their sums what
// each cell adds. The sums are lent and an enum without fields is handed back, so that the compiler
// makes a loop of the recursion: it makes none of calls that hand back the sums, or a `Result`.
fn follow(cells: &[Cell; 131], at: CellAddress, met: &mut CellMap, sums: &mut Sums) -> Walked
    requires cells_value { every cell_sound cells.now ≡ true }
    requires linked { valid Next at.0 ≡ true }
    requires room { Room met.old sums.old }
    ensures sums_after { walked_as result sums.new ≡ followed (rows_of cells.now) at met.old sums.old }
    ensures net_bound { nat_abs sums.new.steps.0 ≤ steps_limit }
{
    if at.0 == 0 {
        return Walked::Whole;
    }
    let place = at.place();
    if met[place] {
        return Walked::MetTwice;
    }
    let cell = cells[place];
    let Some(more) = cell.instruction.adds() else {
        return Walked::OtherCode;
    };
    met[place] = true;
    *sums = Sums {
        steps: NetSteps(sums.steps.0 + more.steps.0),
        delay: Milliseconds(sums.delay.0 + more.delay.0),
    };
    follow(cells, cell.next, met, sums)
}

// The totals of the program that starts at a cell.
pub fn totals_in(cells: &[Cell; 131], start: CellAddress) -> Result<Sums, Refusal>
    requires cells_value { every cell_sound cells.now ≡ true }
    requires start_value { is_cell start ≡ true }
    ensures { totalled_as result ≡ totals_in cells.now start }
{
    let mut met: CellMap = [false; 131];
    let mut sums = Sums {
        steps: NetSteps(0),
        delay: Milliseconds(0),
    };
    match follow(cells, start, &mut met, &mut sums) {
        Walked::Whole => Ok(sums),
        Walked::MetTwice => Err(Refusal::MetTwice),
        Walked::OtherCode => Err(Refusal::OtherCode),
    }
}

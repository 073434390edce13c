// The map of what can be reached.
ghost use Rattle.std.specs.Prelude.{◌≡◌, true, ◌<◌};
ghost use Rattle.cellmap.specs.Marks.{is_marked};
ghost use Rattle.reachability.specs.Graph.{Counted, is_root};
ghost use Rattle.reachability.specs.Search.{Grown};

use crate::search::Search;
use cellmap::CellMap;
use instruction::Cell;

// How many cells everything else is reached from: 100 to 115.
const ROOTS: usize = 16;

// The map of the cells that can be reached from cells 100 to 115, these included.
pub fn count(cells: &[Cell; 131]) -> CellMap
    ensures { Counted cells.now is_root result }
{
    let mut search = Search {
        used: [false; 131],
        order: [0u8; 131],
        count: 0,
    };
    for k in 0..ROOTS {
        search.find(k);
    }
    search.follow(cells)
}

// A map with what a cell in it leads to.
pub fn grow(cells: &[Cell; 131], used: CellMap, at: usize) -> CellMap
    requires at_bound { at < 131 }
    requires at_value { is_marked used at ≡ true }
    ensures { Grown cells.now at used result }
{
    let mut order = [0u8; 131];
    order[0] = at as u8;
    let search = Search {
        used,
        order,
        count: 1,
    };
    search.follow(cells)
}

// What is proved of the map. The theorem is the contract of a function with nothing to do.
ghost use Rattle.usage.specs.UsedCells.{UsedCells};

// After every list of calls, from any drive with its map counted, the map is exactly the cells that
// can be reached. The statement is in specs/UsedCells.antt.
pub fn used_cells()
    ensures { UsedCells }
{}

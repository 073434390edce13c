// What is proved of the definitions. The theorem is the contract of a function with nothing to do.
ghost use Rattle.reachability.specs.MapCases.{MapCases};

// Each worked map holds: which cells are used after some strings. The table is in
// specs/MapCases.antt.
pub fn worked_maps()
    ensures { MapCases }
{}

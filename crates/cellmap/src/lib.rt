// Sets of program cells: a mark for each of the 131 places. How many places have none is what falls
// along a walk that marks each cell that it meets; specs/Marks.antt counts them.
#![tactic(auto)]

pub type CellMap = [bool; 131];

// What is proved of the totals. Each theorem is the contract of a function with nothing to do.
ghost use Rattle.totals.specs.Figures.{Figures};
ghost use Rattle.totals.specs.TotalsCases.{TotalsCases};

// The totals of a start cell are those of a program that is started there, in relative mode, if RS
// allows x4: left alone it ends, and once it has ended it has made exactly these steps and
// milliseconds, in whichever order milliseconds, waits and the board's reports came. The statement
// is in specs/Figures.antt.
pub fn totals_of_a_run()
    ensures { Figures }
{}

// Each worked case holds: the totals of a start cell, the number that refuses it, and what a run of
// it makes. The tables are in specs/TotalsCases.antt.
pub fn worked_totals()
    ensures { TotalsCases }
{}

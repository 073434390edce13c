// What is proved of every travel. The theorem is the contract of a function with nothing to do.
ghost use Rattle.travel.specs.Travel.{Travelling};

// A travel gives the least number of steps, from 0 to the limit, after which the run is over, the
// present cell another, an output changed, or the limit given. The statement is in
// specs/Travel.antt.
pub fn travelling()
    ensures { Travelling }
{}

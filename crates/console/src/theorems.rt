// What is proved of the console's output. The theorem is the contract of a function with nothing
// to do.
ghost use Rattle.console.specs.Examples.{Examples};

// What the console writes for the inputs that 01 gives. They are in specs/Examples.antt.
pub fn examples()
    ensures { Examples }
{}

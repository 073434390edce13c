// What is proved of every list of calls. The theorem is the contract of a function with nothing to
// do.
ghost use Rattle.lists.specs.WholeLists.{WholeLists};

// Calls written as the words of a list are taken where there is room for what is seen of them, and
// come to what they come to one by one. The statement is in specs/WholeLists.antt.
pub fn whole_lists()
    ensures { WholeLists }
{}

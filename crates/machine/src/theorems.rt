// What is proved of the whole drive. Each theorem is the contract of a function with nothing to do.
ghost use Rattle.std.specs.Prelude.{◌≡◌, true};
ghost use Rattle.laws.specs.Tables.{every};
ghost use Rattle.machine.specs.Cases.{holds, starred};
ghost use Rattle.machine.specs.Demand1.{Demand1};
ghost use Rattle.machine.specs.Demand2.{Demand2};
ghost use Rattle.machine.specs.Demand3.{Demand3};
ghost use Rattle.machine.specs.ImageCases.{ImageCases};
ghost use Rattle.machine.specs.Invariant.{Invariant};
ghost use Rattle.machine.specs.MemoryImages.{MemoryImages};
ghost use Rattle.machine.specs.LongerWaits.{LongerWaits};
ghost use Rattle.machine.specs.WorkedCases.{WorkedCases};

// A fresh drive is sound, and so is one read from an image; every call keeps a sound drive sound, a
// refusal gives back the drive as it came, an idle drive has its five busy fields zero, and a wait
// gives the least number of milliseconds after which it may end. The statement is in
// specs/Invariant.antt.
pub fn invariant()
    ensures { Invariant }
{}

// Demand 1: every call on every record is refused by the first number of 01's list that applies, or
// by none; a refusal changes nothing; a sound drive stays sound; and a wait gives the least number
// of milliseconds. The statement is in specs/Demand1.antt.
pub fn demand_one()
    ensures { Demand1 }
{}

// Demand 2: a WN whose fields are in range is answered Y, stored and read back in its normal form,
// and no other call changes a cell; WS, SA, SO and SC are read back as sent; the cell that QM shows
// is the one that a PS starts at, drives that read back alike run alike, and a 21 or 22 shows and
// runs at the greatest table value not above the one sent. The statement is in specs/Demand2.antt.
pub fn demand_two()
    ensures { Demand2 }
{}

// Demand 3, whole: two drives, each made fresh and put through a list of its own, both idle
// afterwards, answer, step and set outputs alike for every further list exactly when their full
// readings are the same bytes; where the readings differ, some list tells the two apart; and
// whichever cell answers are sent back to an idle drive, it does in every further list what it
// would have done without them. The statement is in specs/Demand3.antt.
pub fn demand_three()
    ensures { Demand3 }
{}

// 02, Slip 1: an image that is written and read gives back the presets and cells 100 to 227 in a
// drive that is else fresh; equal bytes are of equal presets and cells; and 10 refuses exactly the
// bytes that the writer makes for no drive. The statement is in specs/MemoryImages.antt.
pub fn memory_images()
    ensures { MemoryImages }
{}

// 02, Slip 6: a 65 takes 0 to 8,388,607 and a 61 no more than before; whatever a gateway of before
// took as an image is taken as the same drive, and written again as the same bytes; such a gateway
// refuses by 10 exactly the images with a wait longer than it knew; and a wait that is shorter than
// a delay is spent, with the rest right. The statement is in specs/LongerWaits.antt.
pub fn longer_waits()
    ensures { LongerWaits }
{}

// Each case that 01 marks with a star holds. The table is in specs/Cases.antt.
pub fn starred_cases()
    ensures { every holds starred ≡ true }
{}

// Each worked case holds: after a list of calls comes the answer, the order, the end of a wait or
// the refusal that 01 or the manual gives. The tables are in specs/WorkedCases.antt.
pub fn worked_cases()
    ensures { WorkedCases }
{}

// Each worked image holds: the bytes that are written for a drive, what a buffer holds then, and
// which bytes are read. The tables are in specs/ImageCases.antt.
pub fn image_cases()
    ensures { ImageCases }
{}

// The ways of a cell, before a string and after it.
ghost use Rattle.std.specs.Prelude.{◌≡◌, true, ◌<◌};
ghost use Rattle.cellmap.specs.Marks.{is_marked};
ghost use Rattle.usage.specs.Updating.{leads_to, loses as loses_way};

use cellmap::CellMap;
use instruction::Cell;
use reachability::ways::{PLACES, jump_place, next_place};

// Whether a map has a place.
pub fn has(used: &CellMap, at: usize) -> bool
    ensures value { result ≡ is_marked used.now at }
    ensures place { result ≡ true → at < 131 }
{
    at < PLACES && used[at]
}

// Whether a cell leads to a place. To no cell there is no way that it could lack.
#[tactic(auto, unfolding(crate::specs::Updating::leads_to, laws::specs::Tests::either))]
fn leads_to(cell: Cell, k: usize) -> bool
    ensures { result ≡ leads_to cell k }
{
    PLACES <= k || next_place(cell) == k || jump_place(cell) == k
}

// Whether a way of the old cell is none of the new.
#[tactic(auto, unfolding(crate::specs::Updating::loses, laws::specs::Tests::both))]
pub fn loses(old: Cell, new: Cell) -> bool
    ensures { result ≡ loses_way old new }
{
    !(leads_to(new, next_place(old)) && leads_to(new, jump_place(old)))
}

// Where a cell leads.
ghost use Rattle.std.specs.Prelude.{◌≡◌};
ghost use Rattle.reachability.specs.Graph.{place_of, next_place, jump_place};

use instruction::Cell;
use units::CellAddress;

// How many places there are, and so the first that is no cell's. What leads to no cell has a place
// past the others and no Option: the definitions, and with them the theorem used_cells, number it so.
pub const PLACES: usize = 131;

// The place of a cell; of 000, which is no cell, 131.
#[tactic(auto, unfolding(crate::specs::Graph::place_of, laws::specs::Tests::choose))]
pub fn place_of(address: CellAddress) -> usize
    ensures { result ≡ place_of address }
{
    if address.0 < CellAddress::FIRST {
        PLACES
    } else {
        address.place()
    }
}

// Where its next leads.
#[tactic(auto, unfolding(crate::specs::Graph::next_place))]
pub fn next_place(cell: Cell) -> usize
    ensures { result ≡ next_place cell }
{
    place_of(cell.next)
}

// Where its jump leads; of a cell that has none, its next again.
#[tactic(auto, unfolding(crate::specs::Graph::jump_place))]
pub fn jump_place(cell: Cell) -> usize
    ensures { result ≡ jump_place cell }
{
    place_of(cell.instruction.jump(cell.next))
}

// The cell that a string names.
ghost use Rattle.std.specs.Prelude.{◌≡◌};
ghost use Rattle.usage.specs.Updating.{place_in};

use parser::naming::cell_field;
use reachability::ways::{PLACES, place_of};
use units::CellAddress;

// The place of the cell that a string names, whatever it asks of it; 131 where it names none, as the
// definitions number it.
pub fn place_in(text: &[u8]) -> usize
    ensures { result ≡ place_in text.now }
{
    let n = text.len();
    if n == 0 {
        return PLACES;
    }
    let Some(named) = cell_field(&text[..n - 1]) else {
        return PLACES;
    };
    place_of(CellAddress((named.values[0] % 256) as u8))
}

// The cell that a string names.
ghost use Rattle.std.specs.Prelude.{◌≡◌, [], ◌∷◌};
ghost use Rattle.fields.specs.Rows.{parse_fields};
ghost use Rattle.format.specs.Formats.{cell};
ghost use Rattle.machine.specs.Commands.{fields_at};

use crate::{CELL, FIELDS};
use fields::rows;
use fields::rows::Parsed;

// BBB of a WN, and the place after it, whatever follows.
pub fn cell_field(s: &[u8]) -> Option<Parsed>
    ensures { result ≡ parse_fields (cell ∷ []) s.now fields_at }
{
    rows::parse_fields(&[CELL], s, FIELDS)
}

// A cell as WN sends it and QM shows it: the text after BBB.
ghost use Rattle.std.specs.Prelude.{◌≡◌};
ghost use Rattle.laws.specs.Writing.{Put};
ghost use Rattle.instruction.specs.Texts.{cell_text, sent_cell, Shown};

use crate::{Cell, numbers};
use fields::kinds::Kind;
use fields::rows;
use format::format_of;

// CC.
const CODE: Kind = Kind::Fixed(2, 0, 99);

// The cell that the text from a place on says, if it says one.
pub fn read_cell(s: &[u8], from: usize) -> Option<Cell>
    ensures { result ≡ sent_cell s.now from }
{
    let first = rows::parse_fields(&[CODE], s, from)?;
    let code = first.values[0];
    let rest = rows::parse_all(format_of(code)?, s, first.at)?;
    Some(numbers::cell_of(code, &rest.values))
}

// The text of a cell, from a place on.
pub fn put_cell(buf: &mut [u8], at: usize, cell: Cell) -> usize
    requires { Shown cell at buf.old }
    ensures { Put buf.old buf.new (cell_text cell) at result }
{
    let code = cell.instruction.code() as u32;
    let next = rows::put_fields(buf, at, &[CODE], [code, 0, 0, 0, 0, 0]);
    // Each instruction has a format.
    let Some(kinds) = format_of(code) else {
        return next;
    };
    rows::put_fields(buf, next, kinds, cell.numbers())
}

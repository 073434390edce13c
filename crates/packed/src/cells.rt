// Cells as bytes: of each its code and the numbers of its QM answer, DDD last.
ghost use Rattle.std.specs.Prelude.{◌≡◌, ◌+◌, ◌≤◌, length};
ghost use Rattle.laws.specs.Writing.{Put};
ghost use Rattle.format.specs.Formats.{codes};
ghost use Rattle.packed.specs.Cells.{cell_bytes, cell_in, cells_bytes, cells_from, cells_as};

use crate::rows;
use instruction::{Cell, numbers};
use varint::groups;

// The bytes of a cell, from a place on; hands back the place after them.
fn put_cell(buf: &mut [u8], at: usize, cell: Cell) -> usize
    requires { at + length (cell_bytes cell) ≤ length buf.old }
    ensures { Put buf.old buf.new (cell_bytes cell) at result }
{
    let instruction = cell.instruction;
    let code = instruction.code() as u32;
    let next = groups::put_number(buf, at, code);
    rows::put_row(
        buf,
        next,
        instruction.field_count(),
        format::signed_place(code),
        &cell.numbers(),
    )
}

// The bytes of cells, from a place on; hands back the place after them.
pub fn put_cells(buf: &mut [u8], from: usize, cells: &[Cell]) -> usize
    requires { from + length (cells_bytes cells.now) ≤ length buf.old }
    ensures { Put buf.old buf.new (cells_bytes cells.now) from result }
{
    let mut at = from;
    for cell in cells {
        at = put_cell(buf, at, *cell);
    }
    at
}

// A cell and the place after it.
#[derive(Clone, Copy)]
pub struct ReadCell {
    pub cell: Cell,
    pub next: usize,
}

// The cell at a place, if the numbers there are those of one.
fn read_cell(s: &[u8], at: usize) -> Option<ReadCell>
    ensures { result ≡ cell_in codes s.now at }
{
    let code = groups::read_number(s, at)?;
    let count = format::field_count(code.value);
    if 6 < count {
        return None;
    }
    let signed = format::signed_place(code.value);
    // Lent to the row, since numbers written one by one are slow to copy at once.
    let mut values = [0; 6];
    let next = rows::read_row(s, code.next, count, signed, &mut values)?;
    let cell = numbers::cell_of(code.value, &values);
    if !numbers::holds_numbers(code.value, &values) {
        return None;
    }
    Some(ReadCell { cell, next })
}

// Reads as many cells as there are places for, from a place on; hands back the place after them.
pub fn read_cells(s: &[u8], from: usize, cells: &mut [Cell]) -> Option<usize>
    ensures { cells_as result cells.new ≡ cells_from codes (length cells.old) s.now from 0 cells.old }
{
    let mut at = from;
    for cell in cells {
        let read = read_cell(s, at)?;
        *cell = read.cell;
        at = read.next;
    }
    Some(at)
}

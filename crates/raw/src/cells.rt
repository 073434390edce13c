// A cell put together from integers: a code, its parameters in the order of QM, and the next cell.
ghost use Rattle.std.specs.Prelude.{◌≡◌};
ghost use Rattle.raw.specs.Cells.{fits_hertz, fits_fixed, fits_count, fits_kind};
ghost use Rattle.raw.specs.Cells.{second_of, number_as, kind_at};
ghost use Rattle.raw.specs.Cells.{cell_holding, fits_row, numbers_in, made_of};

use crate::integers;
use fields::kinds::Kind;
use instruction::{Cell, Instruction, numbers};
use units::{CellAddress, Position};

// A frequency of 21 or 22 is held as its place in the table, so one that is not there cannot be.
#[tactic(auto, unfolding(crate::specs::Cells::fits_hertz))]
fn is_hertz(v: u64) -> bool
    ensures { result ≡ fits_hertz v }
{
    let place = frequency::place(integers::low(v));
    place.hertz() as u64 == v
}

// Digits: a bit, a frequency of the table, or a byte.
#[tactic(auto, unfolding(crate::specs::Cells::fits_fixed, laws::specs::Tests::choose))]
fn is_fixed(width: usize, v: u64) -> bool
    ensures { result ≡ fits_fixed width v }
{
    if width == 1 {
        return v <= 1;
    }
    if width == 4 {
        return is_hertz(v);
    }
    v < 256
}

// nnn: a 05 holds its steps with a sign, a 61 its count in 16 bits, a 65 its delay in 32.
#[tactic(auto, unfolding(crate::specs::Cells::fits_count, laws::specs::Tests::choose))]
fn is_count(code: u64, v: u64) -> bool
    ensures { result ≡ fits_count code v }
{
    if code == 5 {
        return integers::is_signed(v);
    }
    if code == 61 {
        return v < 65536;
    }
    v < 0x1_0000_0000
}

// Whether a cell of a code can hold an integer as a parameter of a kind.
#[tactic(auto, unfolding(crate::specs::Cells::fits_kind, laws::specs::Tests::either))]
fn fits(code: u64, kind: Kind, v: u64) -> bool
    ensures { result ≡ fits_kind code kind v }
{
    match kind {
        Kind::Fixed(width, _, _) => is_fixed(width, v),
        Kind::Next | Kind::Name(_) => v < 256,
        Kind::Count(_, _) => is_count(code, v),
        Kind::Signed(_, _) | Kind::Optional(_, _) => integers::is_signed(v),
        Kind::Sign => (v == 1) | (v == 0xffff_ffff_ffff_ffff),
        Kind::Multiplier => (v == 1) | (v == 4),
    }
}

// 0 for the first of two values, which is 1, and 1 for the second.
#[tactic(auto, unfolding(crate::specs::Cells::second_of, laws::specs::Tests::choose))]
fn second(v: u64) -> u32
    ensures { result ≡ second_of v }
{
    if v == 1 {
        return 0;
    }
    1
}

// A parameter as the number that a cell is made of.
#[tactic(auto, unfolding(crate::specs::Cells::number_as))]
fn number(kind: Kind, v: u64) -> u32
    ensures { result ≡ number_as kind v }
{
    match kind {
        Kind::Sign | Kind::Multiplier => second(v),
        _ => integers::low(v),
    }
}

// The kind at a place of a row. Behind the code's own fields it is Next, and the numbers there are
// 0; of a 69 the first of them is read as its next.
#[tactic(auto, unfolding(crate::specs::Cells::kind_at))]
fn kind_at(kinds: &[Kind], i: usize) -> Kind
    ensures { result ≡ kind_at kinds.now i }
{
    match kinds.get(i) {
        Some(kind) => *kind,
        None => Kind::Next,
    }
}

#[tactic(auto, unfolding(crate::specs::Cells::fits_row, laws::specs::Tests::both))]
fn all_fit(kinds: &[Kind], n: [u64; 7]) -> bool
    ensures { result ≡ fits_row kinds.now n }
{
    let code = n[0];
    fits(code, kind_at(kinds, 0), n[1])
        & fits(code, kind_at(kinds, 1), n[2])
        & fits(code, kind_at(kinds, 2), n[3])
        & fits(code, kind_at(kinds, 3), n[4])
        & fits(code, kind_at(kinds, 4), n[5])
        & fits(code, kind_at(kinds, 5), n[6])
}

#[tactic(auto, unfolding(crate::specs::Cells::numbers_in))]
fn numbers_in(kinds: &[Kind], n: [u64; 7]) -> [u32; 6]
    ensures { result ≡ numbers_in kinds.now n }
{
    [
        number(kind_at(kinds, 0), n[1]),
        number(kind_at(kinds, 1), n[2]),
        number(kind_at(kinds, 2), n[3]),
        number(kind_at(kinds, 3), n[4]),
        number(kind_at(kinds, 4), n[5]),
        number(kind_at(kinds, 5), n[6]),
    ]
}

// The cell of numbers that fit, also in a form that is never stored: a 57 with a position for V=0,
// and a 69 with a next.
#[tactic(auto, unfolding(crate::specs::Cells::cell_holding, laws::specs::Tests::choose))]
fn holding(code: u64, v: [u32; 6]) -> Cell
    ensures { result ≡ cell_holding code v }
{
    if code == 57 {
        return Cell {
            instruction: Instruction::CamSetting {
                set: v[0] == 1,
                position: Position(v[1]),
            },
            next: CellAddress((v[2] % 256) as u8),
        };
    }
    if code == 69 {
        return Cell {
            instruction: Instruction::Recovery,
            next: CellAddress((v[0] % 256) as u8),
        };
    }
    numbers::cell_of(integers::low(code), &v)
}

// The cell of a code, its parameters and its next, where the record can hold it.
#[tactic(auto, unfolding(crate::specs::Cells::made_of, laws::specs::Tests::choose, laws::specs::Tests::both))]
pub fn cell(n: [u64; 7]) -> Option<Cell>
    ensures { result ≡ made_of n }
{
    let code = n[0];
    let kinds = format::format_of(integers::low(code))?;
    if code < 256 && all_fit(kinds, n) {
        return Some(holding(code, numbers_in(kinds, n)));
    }
    None
}

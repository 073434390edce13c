// Rows of kinds: all fields of a string by one loop, and all fields of an answer by another.
ghost use Rattle.std.specs.Prelude.{◌≡◌, ◌≤◌, length};
ghost use Rattle.laws.specs.Writing.{Put};
ghost use Rattle.fields.specs.Rows.{parse_fields, parse_all, print_fields, PrintableRow};

use crate::kinds;
use crate::kinds::Kind;
use crate::reader::{Extent, Reader};

// The values of a row's fields and the place after them.
#[derive(Clone, Copy)]
pub struct Parsed {
    pub at: usize,
    pub values: [u32; 6],
}

// The fields of a row, each after a comma, from a place on: one reader takes one after another, and
// none after a wrong or missing field.
pub fn parse_fields(kinds: &[Kind], s: &[u8], from: usize) -> Option<Parsed>
    requires { length kinds.now ≤ 6 }
    ensures { result ≡ parse_fields kinds.now s.now from }
{
    let mut reader = Reader::new(s, from);
    let mut values = [0u32; 6];
    for (i, kind) in kinds.iter().enumerate() {
        let Extent { start, end } = reader.field()?;
        values[i] = kinds::parse_field(*kind, &s[start..end])?;
        reader = reader.moved(end);
    }
    Some(Parsed {
        at: reader.at,
        values,
    })
}

// The same, where nothing may follow.
#[tactic(auto, unfolding(crate::specs::Rows::parse_all, crate::specs::Rows::ended, laws::specs::Tests::choose))]
pub fn parse_all(kinds: &[Kind], s: &[u8], from: usize) -> Option<Parsed>
    requires { length kinds.now ≤ 6 }
    ensures { result ≡ parse_all kinds.now s.now from }
{
    let parsed = parse_fields(kinds, s, from)?;
    if parsed.at < s.len() {
        None
    } else {
        Some(parsed)
    }
}

// The fields of a row, each after a comma.
pub fn put_fields(buf: &mut [u8], from: usize, kinds: &[Kind], values: [u32; 6]) -> usize
    requires { PrintableRow kinds.now values from buf.old }
    ensures { Put buf.old buf.new (print_fields kinds.now values) from result }
{
    let mut at = from;
    for (i, kind) in kinds.iter().enumerate() {
        buf[at] = b',';
        at = kinds::put_field(buf, at + 1, *kind, values[i]);
    }
    at
}

// One field of each kind: parsed from its bytes, printed into a lent buffer.
ghost use Rattle.std.specs.Prelude.{◌≡◌, [], ◌∷◌, ◌+◌, ◌≤◌, length};
ghost use Rattle.laws.specs.Writing.{Put};
ghost use Rattle.fields.specs.Kinds.{next_of, sign_of, multiplier_digit, multiplier_of, name_of};
ghost use Rattle.fields.specs.Kinds.{parse_field, letters_of, print_field, Printable};

use crate::names;
use crate::names::Names;
use decimal::parse::{read_fixed, read_number, read_optional, read_signed, within_bounds};
use decimal::print::{put_decimal, put_digits, put_signed};

#[derive(Clone, Copy)]
pub enum Kind {
    // Exactly so many digits, from least to greatest.
    Fixed(usize, u32, u32),
    // DDD: 000, or 100 to 230.
    Next,
    // nnn, from least to greatest.
    Count(u32, u32),
    // A sign and nnn: the greatest magnitude below zero and above.
    Signed(u32, u32),
    // The same, where the sign may be left out.
    Optional(u32, u32),
    // s: + is 0, - is 1.
    Sign,
    // XX: x1 is 0, x4 is 1; also with X.
    Multiplier,
    // A name: its place in a list.
    Name(Names),
}

#[tactic(auto, unfolding(crate::specs::Kinds::next_of, decimal::specs::Parsing::within, laws::specs::Tests::choose))]
fn next_cell(x: Option<u32>) -> Option<u32>
    ensures { result ≡ next_of x }
{
    match x {
        Some(0) => x,
        _ => within_bounds(x, 100, 230),
    }
}

#[tactic(auto, unfolding(crate::specs::Kinds::sign_of, laws::specs::Tests::choose))]
fn parse_sign(s: &[u8]) -> Option<u32>
    ensures { result ≡ sign_of s.now }
{
    match s {
        [b'+'] => Some(0),
        [b'-'] => Some(1),
        _ => None,
    }
}

#[tactic(auto, unfolding(crate::specs::Kinds::multiplier_digit, laws::specs::Tests::choose))]
fn multiplier_digit(b: u8) -> Option<u32>
    ensures { result ≡ multiplier_digit b }
{
    match b {
        b'1' => Some(0),
        b'4' => Some(1),
        _ => None,
    }
}

#[tactic(auto, unfolding(crate::specs::Kinds::multiplier_of, laws::specs::Tests::choose))]
fn parse_multiplier(s: &[u8]) -> Option<u32>
    ensures { result ≡ multiplier_of s.now }
{
    match s {
        [b'x' | b'X', b] => multiplier_digit(*b),
        _ => None,
    }
}

#[tactic(auto, unfolding(crate::specs::Kinds::name_of, crate::specs::Names::pair_of, laws::specs::Tests::choose))]
fn parse_name(names: Names, s: &[u8]) -> Option<u32>
    ensures { result ≡ name_of names s.now }
{
    match s {
        [a, b] => names::find(names, u16::from_be_bytes([*a, *b])),
        _ => None,
    }
}

// The value of a field, or that it is wrong.
#[tactic(auto, unfolding(crate::specs::Kinds::parse_field))]
pub fn parse_field(kind: Kind, s: &[u8]) -> Option<u32>
    ensures { result ≡ parse_field kind s.now }
{
    match kind {
        Kind::Fixed(w, low, high) => within_bounds(read_fixed(s, w), low, high),
        Kind::Next => next_cell(read_fixed(s, 3)),
        Kind::Count(low, high) => within_bounds(read_number(s), low, high),
        Kind::Signed(below, above) => read_signed(s, below, above),
        Kind::Optional(below, above) => read_optional(s, below, above),
        Kind::Sign => parse_sign(s),
        Kind::Multiplier => parse_multiplier(s),
        Kind::Name(names) => parse_name(names, s),
    }
}

#[inline]
fn put_bytes(buf: &mut [u8], at: usize, bytes: &[u8]) -> usize
    requires { at + length bytes.now ≤ length buf.old }
    ensures { Put buf.old buf.new bytes.now at result }
{
    let end = at + bytes.len();
    buf[at..end].copy_from_slice(bytes);
    end
}

// The two letters of a name. The library's to_be_bytes divides, and what prints may not (02).
fn put_name(buf: &mut [u8], at: usize, x: u16) -> usize
    requires { at + 2 ≤ length buf.old }
    ensures { Put buf.old buf.new (letters_of x) at result }
{
    let first = x >> 8;
    put_bytes(buf, at, &[first as u8, (x - first * 256) as u8])
}

// A field of a kind, as 01 prints it.
pub fn put_field(buf: &mut [u8], at: usize, kind: Kind, v: u32) -> usize
    requires { Printable kind v at buf.old }
    ensures { Put buf.old buf.new (print_field kind v) at result }
{
    match kind {
        Kind::Fixed(w, _, _) => put_digits(buf, at, v, w),
        Kind::Next => put_digits(buf, at, v, 3),
        Kind::Count(_, _) => put_decimal(buf, at, v),
        Kind::Signed(_, _) => put_signed(buf, at, v),
        Kind::Optional(_, _) => put_signed(buf, at, v),
        Kind::Sign if v == 0 => put_bytes(buf, at, b"+"),
        Kind::Sign => put_bytes(buf, at, b"-"),
        Kind::Multiplier if v == 0 => put_bytes(buf, at, b"x1"),
        Kind::Multiplier => put_bytes(buf, at, b"x4"),
        Kind::Name(names) => put_name(buf, at, names::name(names, v as usize)),
    }
}

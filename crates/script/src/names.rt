// The names of the record's fields in raw writes.
ghost use Rattle.std.specs.Prelude.{◌≡◌};
ghost use Rattle.script.specs.Words.{place_of};
ghost use Rattle.script.specs.Writes.{field_names, is_signed};

use crate::words;

// How many names there are.
pub const COUNT: usize = 19;

// The place of a name in the list, or how many there are.
pub fn place_of(name: &[u8]) -> usize
    ensures { result ≡ place_of name.now field_names }
{
    let k = words::place(name, b"ad in rs es cm pos inp camset campos");
    if k < 9 {
        return k;
    }
    let later = b"errcode errcell reccell recrest recloop cell phase rest loop mark";
    let k = words::place(name, later);
    if k < 10 {
        return 9 + k;
    }
    COUNT
}

// Whether the integer of a field has a sign: pos, campos, recrest and rest.
pub fn is_signed(place: usize) -> bool
    ensures { result ≡ is_signed place }
{
    matches!(place, 5 | 8 | 12 | 16)
}

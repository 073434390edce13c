// The fields that follow each code: one row of kinds to a code.
#![tactic(auto)]

ghost use Rattle.std.specs.Prelude.{◌≡◌, option_map};
ghost use Rattle.format.specs.Formats.{format_of, fields_of, field_count, signed_place};

use fields::kinds::Kind;
use fields::names::Names;
use units::{LOOP_LIMIT, Milliseconds, Steps};

// FF of the ramp codes, FF of 11 and 12 and LL, FFF, RR, and FFFF.
const THOUSANDS: Kind = Kind::Fixed(2, 3, 24);

const HUNDREDS: Kind = Kind::Fixed(2, 2, 30);

const FINE: Kind = Kind::Fixed(3, 30, 240);

const RAMP: Kind = Kind::Fixed(2, 10, 42);

const HERTZ: Kind = Kind::Fixed(4, 1, 4800);

// n, and the nnn of 05, 61 and 65.
const STEPS: Kind = Kind::Signed(Steps::LIMIT as u32, Steps::LIMIT as u32);

const COUNT: Kind = Kind::Count(0, Steps::LIMIT as u32);

const LOOPS: Kind = Kind::Count(1, LOOP_LIMIT as u32);

const DELAY: Kind = Kind::Count(0, Milliseconds::DELAY_LIMIT);

// The position of a 57, EEE, and V and S.
const POSITION: Kind = Kind::Signed(2147483648, 2147483647);

const CELL: Kind = Kind::Fixed(3, 100, 230);

const BIT: Kind = Kind::Fixed(1, 0, 1);

// The kinds of a code's fields; none where there is no such code.
#[tactic(auto, unfolding(crate::specs::Formats::format_of, crate::specs::Formats::fields_of, crate::specs::Formats::fields_in, crate::specs::Formats::known, crate::specs::Formats::known_in, laws::specs::Tests::choose, laws::specs::Tests::either))]
pub fn format_of(code: u32) -> Option<&'static [Kind]>
    ensures { option_map (λ r. r.now) result ≡ format_of code }
{
    Some(match code {
        1 => &[THOUSANDS, RAMP, STEPS, Kind::Multiplier, Kind::Next],
        31 => &[FINE, RAMP, STEPS, Kind::Multiplier, Kind::Next],
        2 => &[THOUSANDS, RAMP, Kind::Sign, Kind::Multiplier, Kind::Next],
        32 => &[FINE, RAMP, Kind::Sign, Kind::Multiplier, Kind::Next],
        11 => &[HUNDREDS, STEPS, Kind::Multiplier, Kind::Next],
        21 => &[HERTZ, STEPS, Kind::Multiplier, Kind::Next],
        12 => &[HUNDREDS, Kind::Sign, Kind::Multiplier, Kind::Next],
        22 => &[HERTZ, Kind::Sign, Kind::Multiplier, Kind::Next],
        3 => &[THOUSANDS, RAMP, Kind::Sign, HUNDREDS, Kind::Next],
        5 => &[
            THOUSANDS,
            RAMP,
            Kind::Sign,
            COUNT,
            Kind::Multiplier,
            Kind::Next,
        ],
        57 => &[BIT, POSITION, Kind::Next],
        58 => &[Kind::Name(Names::Settable), BIT, Kind::Next],
        60 => &[Kind::Next],
        61 => &[LOOPS, Kind::Next],
        62 => &[CELL, Kind::Next],
        63 => &[Kind::Name(Names::Conditions), BIT, CELL, Kind::Next],
        65 => &[DELAY, Kind::Next],
        70 => &[BIT, Kind::Next],
        0 => &[Kind::Next],
        69 => &[],
        _ => return None,
    })
}

// How many fields a code has; 7 where there is no such code.
pub fn field_count(code: u32) -> usize
    ensures { result ≡ field_count code }
{
    match format_of(code) {
        Some(kinds) => kinds.len(),
        None => 7,
    }
}

// The place of the field with a sign; 6 where a code has none. It stands here for the writing and
// reading of a whole memory, which look at no kinds.
#[tactic(auto, unfolding(crate::specs::Formats::signed_place, crate::specs::Formats::signed_from, crate::specs::Formats::fields_of, crate::specs::Formats::fields_in, laws::specs::Tests::choose, fields::specs::Kinds::is_signed))]
pub fn signed_place(code: u32) -> usize
    ensures { result ≡ signed_place (fields_of code) }
{
    match code {
        1 | 31 => 2,
        11 | 21 | 57 => 1,
        _ => 6,
    }
}

// Parsing a whole field as a number: what it says, or none.
ghost use Rattle.std.specs.Prelude.{◌≡◌, ◌≤◌, length};
ghost use Rattle.decimal.specs.Parsing.{value_from, number_of, fixed_of, within, negated};
ghost use Rattle.decimal.specs.Parsing.{signed_of, optional_of};

// The value of at most ten digits.
fn read_value(s: &[u8]) -> Option<u32>
    requires { length s.now ≤ 10 }
    ensures { result ≡ value_from 0 s.now }
{
    let mut value: u64 = 0;
    for &b in s {
        if !b.is_ascii_digit() {
            return None;
        }
        value = value * 10 + (b - b'0') as u64;
    }
    u32::try_from(value).ok()
}

// 1 to 10 digits.
#[tactic(auto, unfolding(crate::specs::Parsing::number_of, laws::specs::Tests::choose))]
pub fn read_number(s: &[u8]) -> Option<u32>
    ensures { result ≡ number_of s.now }
{
    match s.len() {
        1..=10 => read_value(s),
        _ => None,
    }
}

// Exactly w digits.
#[tactic(auto, unfolding(crate::specs::Parsing::fixed_of, laws::specs::Tests::choose))]
pub fn read_fixed(s: &[u8], w: usize) -> Option<u32>
    ensures { result ≡ fixed_of w s.now }
{
    if s.len() == w { read_number(s) } else { None }
}

// A number that lies within bounds.
#[tactic(auto, unfolding(crate::specs::Parsing::within, laws::specs::Tests::choose))]
pub fn within_bounds(x: Option<u32>, low: u32, high: u32) -> Option<u32>
    ensures { result ≡ within low high x }
{
    let v = x?;
    if (low..=high).contains(&v) {
        Some(v)
    } else {
        None
    }
}

// Minus a number, in two's complement.
#[tactic(auto, unfolding(crate::specs::Parsing::negated))]
fn negate(x: Option<u32>) -> Option<u32>
    ensures { result ≡ negated x }
{
    Some(x?.wrapping_neg())
}

// A sign and 1 to 10 digits, at most `below` under zero and `above` over it.
#[tactic(auto, unfolding(crate::specs::Parsing::signed_of, laws::specs::Tests::choose))]
pub fn read_signed(s: &[u8], below: u32, above: u32) -> Option<u32>
    ensures { result ≡ signed_of below above s.now }
{
    match s {
        [b'+', digits @ ..] => within_bounds(read_number(digits), 0, above),
        [b'-', digits @ ..] => negate(within_bounds(read_number(digits), 0, below)),
        _ => None,
    }
}

// The same, where the sign may be left out.
#[tactic(auto, unfolding(crate::specs::Parsing::optional_of, laws::specs::Tests::choose, laws::specs::Tests::either))]
pub fn read_optional(s: &[u8], below: u32, above: u32) -> Option<u32>
    ensures { result ≡ optional_of below above s.now }
{
    match s {
        [] => None,
        [b'+' | b'-', ..] => read_signed(s, below, above),
        _ => within_bounds(read_number(s), 0, above),
    }
}

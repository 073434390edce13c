// Numbers of a script. A signed one is held as its 64 bits in two's complement.
ghost use Rattle.std.specs.Prelude.{◌≡◌};
ghost use Rattle.script.specs.Numbers.{unsigned_of, positive, negative, integer_of};

// Decimal digits, at most 4294967295.
pub fn unsigned(word: &[u8]) -> Option<u32>
    ensures { result ≡ unsigned_of word.now }
{
    if word.is_empty() {
        return None;
    }
    let mut value: u64 = 0;
    for byte in word {
        if !byte.is_ascii_digit() {
            return None;
        }
        value = value * 10 + u64::from(*byte - b'0');
        if 0xffff_ffff < value {
            return None;
        }
    }
    Some(value as u32)
}

#[tactic(auto, unfolding(crate::specs::Numbers::positive))]
pub fn plus(number: Option<u32>) -> Option<u64>
    ensures { result ≡ positive number }
{
    number.map(u64::from)
}

#[tactic(auto, unfolding(crate::specs::Numbers::negative))]
fn minus(number: Option<u32>) -> Option<u64>
    ensures { result ≡ negative number }
{
    Some(u64::from(number?).wrapping_neg())
}

// The same with a sign before it, which may be left out.
#[tactic(auto, unfolding(crate::specs::Numbers::integer_of, laws::specs::Tests::choose))]
pub fn signed(word: &[u8]) -> Option<u64>
    ensures { result ≡ integer_of word.now }
{
    let [sign, digits @ ..] = word else {
        return None;
    };
    match sign {
        b'-' => minus(unsigned(digits)),
        b'+' => plus(unsigned(digits)),
        _ => plus(unsigned(word)),
    }
}

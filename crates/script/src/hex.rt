// The bytes of a string or an image in lower-case hex.
ghost use Rattle.std.specs.Prelude.{◌≡◌, ◌≤◌, ◌<◌, IfSome};
ghost use Rattle.script.specs.Hex.{nibble_of, pair_of, decoded_of, text_of};

// The value of a digit.
#[tactic(auto, unfolding(crate::specs::Hex::nibble_of, laws::specs::Tests::choose, laws::specs::Tests::both))]
fn nibble(digit: u8) -> Option<u8>
    ensures value { result ≡ nibble_of digit }
    ensures bound { IfSome result (λ value. value < 16) }
{
    match digit {
        b'0'..=b'9' => Some(digit - b'0'),
        b'a'..=b'f' => Some(digit - b'a' + 10),
        _ => None,
    }
}

// Two digits as a byte.
#[tactic(auto, unfolding(crate::specs::Hex::pair_of))]
fn pair(high: u8, low: u8) -> Option<u8>
    ensures { result ≡ pair_of (nibble_of high) (nibble_of low) }
{
    let upper = nibble(high)?;
    let lower = nibble(low)?;
    Some(upper * 16 + lower)
}

// Bytes, `most` of them at most, put at the front of the text, and how many; `-` for none.
pub fn decode(word: &[u8], most: usize, text: &mut [u8; 2048]) -> Option<usize>
    requires { most ≤ 2048 }
    ensures value { result ≡ decoded_of most word.now }
    ensures text { text.new ≡
        text_of most word.now text.old }
{
    if check::same(word, b"-") {
        return Some(0);
    }
    let n = word.len() / 2;
    if n == 0 {
        return None;
    }
    if most < n {
        return None;
    }
    if n * 2 != word.len() {
        return None;
    }
    for i in 0..n {
        let byte = pair(word[i * 2], word[i * 2 + 1])?;
        text[i] = byte;
    }
    Some(n)
}

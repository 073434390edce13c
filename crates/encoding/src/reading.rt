// Bytes and little-endian numbers of a list. What is missing counts as 0.
ghost use Rattle.std.specs.Prelude.{◌≡◌, ◌<◌, get_or};
ghost use Rattle.encoding.specs.Numbers.{pair_at, number_at};

pub fn byte_at(list: &[u8], k: usize) -> u8
    ensures { result ≡ get_or list.now k 0 }
{
    if k < list.len() {
        return list[k];
    }
    0
}

// Two bytes, the lower first.
#[tactic(auto, unfolding(crate::specs::Numbers::pair_at))]
pub fn pair_at(list: &[u8], k: usize) -> u16
    requires { k < 16 }
    ensures { result ≡ pair_at list.now k }
{
    let low = byte_at(list, k);
    let high = byte_at(list, k + 1);
    low as u16 + 256 * (high as u16)
}

// Four bytes, the lowest first.
#[tactic(auto, unfolding(crate::specs::Numbers::number_at))]
pub fn number_at(list: &[u8], k: usize) -> u32
    requires { k < 8 }
    ensures { result ≡ number_at list.now k }
{
    let low = pair_at(list, k);
    let high = pair_at(list, k + 2);
    low as u32 + 65536 * (high as u32)
}

// Bytes of a slice: the search for one of them, and a copy to the front of another slice.
#![tactic(auto)]

ghost use Rattle.std.specs.Prelude.{◌≡◌, ◌+◌, ◌≤◌, ◌++◌, length, drop};
ghost use Rattle.scan.specs.Bytes.{index_of, slice};

// The first place where a byte stands, of those from `from` on that lie before `to`; `to` where it
// stands at none of them.
pub fn find(s: &[u8], from: usize, to: usize, byte: u8) -> usize
    requires order { from ≤ to }
    requires within { to ≤ length s.now }
    ensures place { result ≡ from + index_of byte (slice from to s.now) }
    ensures bound { result ≤ to }
{
    for at in from..to {
        if s[at] == byte {
            return at;
        }
    }
    to
}

// Puts bytes at the front of a slice that has room for them; what stands behind them stays.
pub fn copy(bytes: &[u8], to: &mut [u8])
    requires { length bytes.now ≤ length to.old }
    ensures { to.new ≡ bytes.now ++ drop (length bytes.now) to.old }
{
    to[..bytes.len()].copy_from_slice(bytes);
}

// Integers as 64 bits in two's complement, and whether narrower types hold them.
ghost use Rattle.std.specs.Prelude.{◌≡◌};
ghost use Rattle.instruction.specs.Numbers.{byte_of, word_of};
ghost use Rattle.raw.specs.Integers.{fits_signed, long_of, extended as extended_of};

// The low 8 bits.
pub fn byte(v: u64) -> u8
    ensures { result ≡ byte_of v }
{
    (v % 256) as u8
}

// The low 16 bits.
pub fn word(v: u64) -> u16
    ensures { result ≡ word_of v }
{
    (v % 65536) as u16
}

// The low 32 bits.
pub fn low(v: u64) -> u32
    ensures { result ≡ long_of v }
{
    (v % 0x1_0000_0000) as u32
}

// The integer that 32 bits in two's complement stand for.
#[tactic(auto, unfolding(crate::specs::Integers::extended, laws::specs::Tests::choose))]
pub fn extended(bits: u32) -> u64
    ensures { result ≡ extended_of bits }
{
    if bits < 0x8000_0000 {
        return bits as u64;
    }
    bits as u64 + 0xffff_ffff_0000_0000
}

// Whether 32 bits in two's complement hold an integer.
#[tactic(auto, unfolding(crate::specs::Integers::fits_signed, laws::specs::Tests::either))]
pub fn is_signed(v: u64) -> bool
    ensures { result ≡ fits_signed v }
{
    (v < 0x8000_0000) | (0xffff_ffff_8000_0000 <= v)
}

// Bytes and numbers of 32 bits into a buffer, the lowest byte first.
ghost use Rattle.std.specs.Prelude.{[], ◌∷◌, ◌+◌, ◌≤◌, length};
ghost use Rattle.laws.specs.Writing.{Put};
ghost use Rattle.encoding.specs.Numbers.{number_bytes};

pub fn put_byte(buffer: &mut [u8], at: usize, value: u8) -> usize
    requires { at + 1 ≤ length buffer.old }
    ensures { Put buffer.old buffer.new (value ∷ []) at result }
{
    buffer[at] = value;
    at + 1
}

pub fn put_number(buffer: &mut [u8], at: usize, value: u32) -> usize
    requires { at + 4 ≤ length buffer.old }
    ensures { Put buffer.old buffer.new (number_bytes value) at result }
{
    buffer[at] = (value % 256) as u8;
    buffer[at + 1] = (value / 256 % 256) as u8;
    buffer[at + 2] = (value / 65536 % 256) as u8;
    buffer[at + 3] = (value / 16777216 % 256) as u8;
    at + 4
}

// What every answer is made of: the address, a code or a verdict, a row of fields, byte 13.
ghost use Rattle.std.specs.Prelude.{◌≡◌, [], ◌∷◌, ◌+◌, ◌≤◌, length};
ghost use Rattle.laws.specs.Writing.{Put};
ghost use Rattle.fields.specs.Rows.{print_fields};
ghost use Rattle.machine.specs.Answers.{accepted, rejected};
ghost use Rattle.replies.specs.Pieces.{front_of, request_answer, Ready, ReadyRow};

use decimal::print;
use fields::kinds::Kind;
use fields::rows;
use machine::codes::CARRIAGE_RETURN;
use machine::commands::StringAddress;

// A number of 32 bits with its sign.
pub const ANY_SIGNED: Kind = Kind::Signed(0x8000_0000, 0x7fff_ffff);

// The address in the string and two bytes.
pub fn put_front(buf: &mut [u8], aa: StringAddress, a: u8, b: u8) -> usize
    requires { Ready aa buf.old }
    ensures { Put buf.old buf.new (front_of aa a b) 0 result }
{
    let at = print::put_digits(buf, 0, aa.0 as u32, 2);
    buf[at] = a;
    buf[at + 1] = b;
    at + 2
}

// Byte 13, the end of every answer.
pub fn put_end(buf: &mut [u8], at: usize) -> usize
    requires { at + 1 ≤ length buf.old }
    ensures { Put buf.old buf.new (13 ∷ []) at result }
{
    buf[at] = CARRIAGE_RETURN;
    at + 1
}

// Y: a command that is carried out.
pub fn put_accepted(buf: &mut [u8], aa: StringAddress) -> usize
    requires { Ready aa buf.old }
    ensures { Put buf.old buf.new (accepted aa) 0 result }
{
    put_front(buf, aa, b'Y', CARRIAGE_RETURN)
}

// N: a string that is heard and not carried out.
pub fn put_rejected(buf: &mut [u8], aa: StringAddress) -> usize
    requires { Ready aa buf.old }
    ensures { Put buf.old buf.new (rejected aa) 0 result }
{
    put_front(buf, aa, b'N', CARRIAGE_RETURN)
}

// The answer to a request whose fields are a row.
pub fn put_row(
    buf: &mut [u8],
    aa: StringAddress,
    letter: u8,
    kinds: &[Kind],
    values: [u32; 6],
) -> usize
    requires { ReadyRow aa kinds.now values buf.old }
    ensures { Put buf.old buf.new
        (request_answer aa letter (print_fields kinds.now values)) 0 result }
{
    let at = put_front(buf, aa, b'Q', letter);
    let end = rows::put_fields(buf, at, kinds, values);
    put_end(buf, end)
}

// Raw writes: a field, an output or a cell, and what is to be written.
ghost use Rattle.std.specs.Prelude.{◌≡◌, drop};
ghost use Rattle.script.specs.Words.{words_of};
ghost use Rattle.script.specs.Numbers.{integer_of};
ghost use Rattle.script.specs.Writes.{with_value, field_of, output_of, address_of, is_cell};
ghost use Rattle.script.specs.Writes.{is_integer, are_integers, filled, integer_put};
ghost use Rattle.script.specs.Writes.{code_of, takes_count, cell_of, cell_numbers};
ghost use Rattle.script.specs.Writes.{write_of, numbers_of};

use crate::call::{Call, Complaint, Write};
use crate::words::Line;
use crate::{names, numbers};
use fields::kinds;
use fields::kinds::Kind;
use fields::names::Names;

// How many outputs the record has; the list of names goes on with two that it has not.
const OUTPUTS: u32 = 14;

// The addresses of the first and the last cell.
const FIRST: u32 = 100;

const LAST: u32 = 230;

#[tactic(auto, unfolding(crate::specs::Writes::with_value))]
fn with_value(place: usize, number: Option<u64>) -> Result<Call, Complaint>
    ensures { result ≡ with_value place number }
{
    let value = number.ok_or(Complaint::NotANumber)?;
    Ok(Call::Writes(Write::Field { place, value }))
}

#[tactic(auto, unfolding(crate::specs::Writes::field_of, laws::specs::Tests::choose))]
fn of_field(line: Line, place: usize) -> Result<Call, Complaint>
    ensures { result ≡ field_of (words_of line.entry.text.now) place }
{
    if line.count != 3 {
        return Err(Complaint::MissingOrExtraWord);
    }
    let word = line.word(2);
    if names::is_signed(place) {
        return with_value(place, numbers::signed(word));
    }
    with_value(place, numbers::plus(numbers::unsigned(word)))
}

#[tactic(auto, unfolding(crate::specs::Writes::output_of, crate::specs::Writes::named_output, crate::specs::Writes::with_output, laws::specs::Tests::choose))]
fn of_output(line: Line) -> Result<Call, Complaint>
    ensures { result ≡ output_of (words_of line.entry.text.now) }
{
    if line.count != 4 {
        return Err(Complaint::MissingOrExtraWord);
    }
    let name = kinds::parse_field(Kind::Name(Names::Outputs), line.word(2));
    let output = name.ok_or(Complaint::UnknownName)?;
    if OUTPUTS <= output {
        return Err(Complaint::UnknownName);
    }
    let number = numbers::unsigned(line.word(3));
    let value = number.ok_or(Complaint::NotANumber)?;
    Ok(Call::Writes(Write::Output {
        place: output as usize,
        value,
    }))
}

// The address in a name such as c100; 0 where it is none.
#[tactic(auto, unfolding(crate::specs::Writes::address_of, crate::specs::Writes::value_or0, laws::specs::Tests::choose))]
fn address(name: &[u8]) -> u32
    ensures { result ≡ address_of name.now }
{
    match name {
        [b'c', digits @ ..] if name.len() == 4 => numbers::unsigned(digits).unwrap_or(0),
        _ => 0,
    }
}

// Puts a number at a place if there is one; whether the word is a number.
#[tactic(auto, unfolding(crate::specs::Writes::is_integer, crate::specs::Writes::integer_put, laws::specs::Tests::choose))]
fn keep(word: &[u8], numbers: &mut [u64; 7], i: usize) -> bool
    ensures value { result ≡ is_integer (integer_of word.now) }
    ensures numbers { numbers.new ≡
        integer_put (integer_of word.now) i numbers.old }
{
    let Some(value) = numbers::signed(word) else {
        return false;
    };
    if i < 7 {
        numbers[i] = value;
    }
    true
}

// The words from the third on as numbers; whether all are.
#[tactic(auto, unfolding(crate::specs::Writes::filled))]
fn keep_all(line: Line, numbers: &mut [u64; 7]) -> bool
    ensures value { result ≡ are_integers (drop 2 (words_of line.entry.text.now)) }
    ensures numbers { numbers.new ≡
        filled (drop 2 (words_of line.entry.text.now)) numbers.old }
{
    for k in 2..line.count {
        if !keep(line.word(k), numbers, k - 2) {
            return false;
        }
    }
    true
}

// The code in a word; 0 where it is none.
#[tactic(auto, unfolding(crate::specs::Writes::code_of))]
fn code_of(word: &[u8]) -> u64
    ensures { result ≡ code_of (integer_of word.now) }
{
    numbers::signed(word).unwrap_or(0)
}

// Whether a code takes so many numbers after it. One that there is not takes any.
fn takes(code: u64, count: usize) -> bool
    ensures { result ≡ takes_count code count }
{
    if 99 < code {
        return true;
    }
    match format::format_of(code as u32) {
        Some([]) => count == 1,
        Some(kinds) => count == kinds.len(),
        None => true,
    }
}

#[tactic(auto, unfolding(crate::specs::Writes::cell_of, crate::specs::Writes::cell_numbers, laws::specs::Tests::choose))]
fn of_cell(line: Line, place: usize, numbers: &mut [u64; 7]) -> Result<Call, Complaint>
    ensures value { result ≡ cell_of (words_of line.entry.text.now) place }
    ensures numbers { numbers.new ≡
        cell_numbers (words_of line.entry.text.now) numbers.old }
{
    if line.count < 4 {
        return Err(Complaint::MissingOrExtraWord);
    }
    if !keep_all(line, numbers) {
        return Err(Complaint::NotANumber);
    }
    if !takes(code_of(line.word(2)), line.count - 3) {
        return Err(Complaint::MissingOrExtraWord);
    }
    Ok(Call::Writes(Write::Cell { place }))
}

// Whether an address is a cell's.
#[tactic(auto, unfolding(crate::specs::Writes::is_cell, laws::specs::Tests::both))]
fn is_cell(address: u32) -> bool
    ensures { result ≡ is_cell address }
{
    (FIRST..=LAST).contains(&address)
}

// The call of a raw write. The numbers of a cell are put into the numbers.
pub fn parse(line: Line, numbers: &mut [u64; 7]) -> Result<Call, Complaint>
    ensures value { result ≡ write_of (words_of line.entry.text.now) }
    ensures numbers { numbers.new ≡
        numbers_of (words_of line.entry.text.now) numbers.old }
{
    let name = line.word(1);
    if check::same(name, b"out") {
        return of_output(line);
    }
    let at = address(name);
    if is_cell(at) {
        return of_cell(line, (at - FIRST) as usize, numbers);
    }
    let place = names::place_of(name);
    if names::COUNT <= place {
        return Err(Complaint::UnknownName);
    }
    of_field(line, place)
}

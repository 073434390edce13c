// A line of a script as a call.
ghost use Rattle.std.specs.Prelude.{◌≡◌, [], slice_index_or};
ghost use Rattle.script.specs.Words.{words_of};
ghost use Rattle.script.specs.Hex.{text_of};
ghost use Rattle.script.specs.Calls.{form_of, word_count, alone_call, number_call, on_number};
ghost use Rattle.script.specs.Calls.{buffer_of, string_of, save_of, load_of};
ghost use Rattle.script.specs.Calls.{formed, formed_text, counted, counted_text};
ghost use Rattle.script.specs.Calls.{is_comment, call_of, text_after, numbers_after};

use crate::call::{Call, Complaint, Event, Look};
use crate::words::Line;
use crate::{hex, numbers, writes};

// How many bytes a string has at most, and an image.
const LONGEST_STRING: usize = 256;

const LONGEST_IMAGE: usize = 2048;

// How many words the calls have; 0 where the letter names none.
#[tactic(auto, unfolding(crate::specs::Calls::word_count, crate::specs::Calls::form_of, crate::specs::Calls::form_in, laws::specs::Tests::choose, laws::specs::Text::bytes))]
fn words_of(letter: u8) -> usize
    ensures { result ≡ word_count (form_of letter) }
{
    match letter {
        b'F' => 2,
        b'S' => 4,
        b'I' => 2,
        b'M' => 1,
        b'P' => 1,
        b'A' => 1,
        b'H' => 1,
        b'W' => 2,
        b'B' => 1,
        b'R' => 2,
        b'Q' => 1,
        b'O' => 3,
        b'L' => 2,
        b'T' => 2,
        b'U' => 1,
        b'V' => 1,
        b'X' => 1,
        _ => 0,
    }
}

#[tactic(auto, unfolding(crate::specs::Calls::alone_call, crate::specs::Calls::form_of, crate::specs::Calls::form_in, laws::specs::Tests::choose, laws::specs::Text::bytes))]
fn plain(letter: u8) -> Call
    ensures { result ≡ alone_call (form_of letter) }
{
    match letter {
        b'M' => Call::Happens(Event::Millisecond),
        b'P' => Call::Happens(Event::Step),
        b'A' => Call::Happens(Event::AtSpeed),
        b'H' => Call::Happens(Event::Halted),
        b'B' => Call::Looks(Look::Order),
        b'U' => Call::Looks(Look::Used),
        b'V' => Call::Looks(Look::Record),
        b'X' => Call::Looks(Look::Image),
        _ => Call::Looks(Look::Reading),
    }
}

#[tactic(auto, unfolding(crate::specs::Calls::number_call, crate::specs::Calls::form_of, crate::specs::Calls::form_in, laws::specs::Tests::choose, laws::specs::Text::bytes))]
fn number_call(letter: u8, v: u32) -> Call
    ensures { result ≡ number_call (form_of letter) v }
{
    match letter {
        b'F' => Call::Fresh(v),
        b'I' => Call::Happens(Event::Inputs(v)),
        b'W' => Call::Wait(v),
        b'T' => Call::Looks(Look::Totals(v)),
        _ => Call::Looks(Look::Rounding(v)),
    }
}

#[tactic(auto, unfolding(crate::specs::Calls::on_number))]
fn with_number(letter: u8, number: Option<u32>) -> Result<Call, Complaint>
    ensures { result ≡ on_number (number_call (form_of letter)) number }
{
    let v = number.ok_or(Complaint::NotANumber)?;
    Ok(number_call(letter, v))
}

// A buffer to be lent, so many bytes of one value.
#[derive(Clone, Copy)]
struct Buffer {
    size: usize,
    fill: u8,
}

#[tactic(auto, unfolding(crate::specs::Calls::buffer_of, laws::specs::Tests::choose))]
fn buffer_of(first: Option<u32>, second: Option<u32>, most: u32) -> Result<Buffer, Complaint>
    ensures { result ≡ buffer_of most first second }
{
    let size = first.ok_or(Complaint::NotANumber)?;
    let fill = second.ok_or(Complaint::NotANumber)?;
    if most < size || 255 < fill {
        return Err(Complaint::NumberTooLarge);
    }
    Ok(Buffer {
        size: size as usize,
        fill: fill as u8,
    })
}

#[tactic(auto, unfolding(crate::specs::Calls::string_of, crate::specs::Calls::string_with, crate::specs::Calls::on_buffer))]
fn string(line: Line, text: &mut [u8; 2048]) -> Result<Call, Complaint>
    ensures value { result ≡ string_of (words_of line.entry.text.now) }
    ensures text { text.new ≡
        text_of 256 (slice_index_or (words_of line.entry.text.now) 1 []) text.old }
{
    let decoded = hex::decode(line.word(1), LONGEST_STRING, text);
    let length = decoded.ok_or(Complaint::NotHex)?;
    let first = numbers::unsigned(line.word(2));
    let second = numbers::unsigned(line.word(3));
    let Buffer { size, fill } = buffer_of(first, second, 256)?;
    Ok(Call::Tell { length, size, fill })
}

#[tactic(auto, unfolding(crate::specs::Calls::save_of, crate::specs::Calls::on_buffer))]
fn save(line: Line) -> Result<Call, Complaint>
    ensures { result ≡ save_of (words_of line.entry.text.now) }
{
    let first = numbers::unsigned(line.word(1));
    let second = numbers::unsigned(line.word(2));
    let Buffer { size, fill } = buffer_of(first, second, 2048)?;
    Ok(Call::Save { size, fill })
}

#[tactic(auto, unfolding(crate::specs::Calls::load_of, crate::specs::Calls::load_with))]
fn load(line: Line, text: &mut [u8; 2048]) -> Result<Call, Complaint>
    ensures value { result ≡ load_of (words_of line.entry.text.now) }
    ensures text { text.new ≡
        text_of 2048 (slice_index_or (words_of line.entry.text.now) 1 []) text.old }
{
    let decoded = hex::decode(line.word(1), LONGEST_IMAGE, text);
    let length = decoded.ok_or(Complaint::NotImageHex)?;
    Ok(Call::Load { length })
}

// The call of a line that has as many words as its letter asks.
fn of_form(letter: u8, wanted: usize, line: Line, text: &mut [u8; 2048]) -> Result<Call, Complaint>
    requires wanted_value { wanted ≡ word_count (form_of letter) }
    requires not_wanted { ¬ (wanted ≡ 0) }
    ensures value { result ≡ formed (form_of letter) (words_of line.entry.text.now) }
    ensures text { text.new ≡
        formed_text (form_of letter) (words_of line.entry.text.now) text.old }
{
    if wanted == 1 {
        return Ok(plain(letter));
    }
    if letter == b'L' {
        return load(line, text);
    }
    if wanted == 2 {
        return with_number(letter, numbers::unsigned(line.word(1)));
    }
    if wanted == 3 {
        return save(line);
    }
    string(line, text)
}

fn of_letter(letter: u8, line: Line, text: &mut [u8; 2048]) -> Result<Call, Complaint>
    ensures value { result ≡ counted (form_of letter) (words_of line.entry.text.now) }
    ensures text { text.new ≡
        counted_text (form_of letter) (words_of line.entry.text.now) text.old }
{
    let wanted = words_of(letter);
    if wanted == 0 {
        return Err(Complaint::NotACall);
    }
    if line.count != wanted {
        return Err(Complaint::MissingOrExtraWord);
    }
    of_form(letter, wanted, line, text)
}

// Whether a line is a comment.
#[tactic(auto, unfolding(crate::specs::Calls::is_comment))]
fn is_comment(line: &[u8]) -> bool
    ensures { result ≡ is_comment line.now }
{
    matches!(line, [b'#', ..])
}

// The call of a line. The bytes of a string or an image are put into the text, the numbers of a raw
// cell into the numbers; what they leave of them is as it was.
#[tactic(auto, unfolding(crate::specs::Calls::call_of, crate::specs::Calls::of_letter, crate::specs::Calls::text_after, crate::specs::Calls::numbers_after, crate::specs::Calls::first_letter, crate::specs::Calls::counted, crate::specs::Calls::counted_text, crate::specs::Calls::form_of, crate::specs::Calls::form_in, crate::specs::Calls::word_count, crate::specs::Calls::formed_text, laws::specs::Tests::choose, laws::specs::Text::bytes))]
pub fn parse(line: &[u8], text: &mut [u8; 2048], numbers: &mut [u64; 7]) -> Result<Call, Complaint>
    ensures value { result ≡ call_of line.now }
    ensures text { text.new ≡
        text_after line.now text.old }
    ensures numbers { numbers.new ≡
        numbers_after line.now numbers.old }
{
    if is_comment(line) {
        return Ok(Call::Comment);
    }
    let line = Line::new(line);
    let first = line.word(0);
    if first.len() != 1 {
        return Err(Complaint::NotACall);
    }
    let letter = first[0];
    if letter == b'K' {
        return writes::parse(line, numbers);
    }
    of_letter(letter, line, text)
}

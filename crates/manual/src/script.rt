// The lines of the script, by their first byte.
use decimal::parse::read_number;
use lines::gathering::front;
use lines::words;
use units::{DriveAddress, Milliseconds};

#[derive(Clone, Copy)]
pub enum Event {
    Millisecond,
    Step,
    AtSpeed,
    Halted,
    Inputs(u16),
    // A fresh drive takes the place of the one before.
    Fresh(DriveAddress),
}

#[derive(Clone, Copy)]
pub enum Line<'a> {
    // `> 00QA`: a string, to which byte 13 is added.
    Say(&'a [u8]),
    // `< 00QA,+0`: the answer that is expected.
    Look(&'a [u8]),
    // `m 5`: an event, so many times.
    Happens(Event, u32),
    // `o stand:1,0,0`: the order to the board that is expected.
    Order(&'a [u8]),
    // `w 9 idle 2`: a wait with a budget, and what is expected of it: how it ends and how many
    // milliseconds it gives.
    Wait(Milliseconds, &'a [u8]),
}

// `m 5`, `p 400`, `a`, `h`: without a number, once.
fn repeated(event: Event, text: &[u8]) -> Option<Line<'_>> {
    if text.is_empty() {
        return Some(Line::Happens(event, 1));
    }
    Some(Line::Happens(event, read_number(text)?))
}

fn inputs(text: &[u8]) -> Option<Line<'_>> {
    let word = u16::try_from(read_number(text)?).ok()?;
    Some(Line::Happens(Event::Inputs(word), 1))
}

fn fresh(text: &[u8]) -> Option<Line<'_>> {
    let address = u8::try_from(read_number(text)?).ok()?;
    Some(Line::Happens(Event::Fresh(DriveAddress(address)), 1))
}

fn wait(text: &[u8]) -> Option<Line<'_>> {
    let n = words::word_length(text);
    let budget = read_number(front(text, n))?;
    Some(Line::Wait(Milliseconds(budget), words::behind(text, n)))
}

// A line of a paragraph, unless it has none of the script's forms.
pub fn line_of(letter: u8, text: &[u8]) -> Option<Line<'_>> {
    match letter {
        b'>' => Some(Line::Say(text)),
        b'<' => Some(Line::Look(text)),
        b'm' => repeated(Event::Millisecond, text),
        b'p' => repeated(Event::Step, text),
        b'a' => repeated(Event::AtSpeed, text),
        b'h' => repeated(Event::Halted, text),
        b'i' => inputs(text),
        b'f' => fresh(text),
        b'o' => Some(Line::Order(text)),
        b'w' => wait(text),
        _ => None,
    }
}

// Which strings are heard, 01's checks 1 to 4 in its order, and what they ask for, checks 5 and 6.
ghost use Rattle.std.specs.Prelude.{◌-◌, ◌≤◌, ◌≡◌, true, ltb, get_or};
ghost use Rattle.laws.specs.Tests.{choose};
ghost use Rattle.machine.specs.Commands.{command_by, placed};
ghost use Rattle.machine.specs.Strings.{ended as ended_of, is_digit, header_of, to_every};
ghost use Rattle.machine.specs.Strings.{addressed as addressed_of, is_stop, free as free_of};
ghost use Rattle.machine.specs.Strings.{permitted as permitted_of, admitted as admitted_of};
ghost use Rattle.machine.specs.Strings.{allowed as allowed_of};
ghost use Rattle.machine.specs.declared.commands.Command.TheVariants.{Wrong};

use machine::codes::CARRIAGE_RETURN;
use machine::commands::{Command, Header, StringAddress};
use machine::{State, codes};
use progress::idle;
use units::DriveAddress;

// The bytes of the longest string, with its 13.
const LONGEST: usize = 64;

// A string ends in byte 13.
#[tactic(auto, unfolding(machine::specs::Strings::ended, laws::specs::Tests::both))]
pub fn ended(b: &[u8]) -> bool
    ensures { result ≡ ended_of b.now }
{
    matches!(b, [.., CARRIAGE_RETURN])
}

#[tactic(auto, unfolding(machine::specs::Strings::is_digit, laws::specs::Tests::both))]
fn is_digit(b: u8) -> bool
    ensures { result ≡ is_digit b }
{
    b.is_ascii_digit()
}

// The value of a digit; below the digits 0.
fn digit_value(b: u8) -> u16
    ensures value { result ≡ b - 48 }
    ensures small { result ≤ 207 }
{
    u16::from(b.saturating_sub(b'0'))
}

// The byte at a place, 0 past the end.
fn byte_at(s: &[u8], i: usize) -> u8
    ensures { result ≡ get_or s.now i 0 }
{
    s.get(i).copied().unwrap_or(0)
}

// The first four bytes of a string, which stands here without its byte 13.
pub fn header_in(s: &[u8]) -> Header
    ensures { result ≡ header_of s.now }
{
    let a = byte_at(s, 0);
    let b = byte_at(s, 1);
    let c = byte_at(s, 2);
    let d = byte_at(s, 3);
    Header {
        digits: is_digit(a) & is_digit(b),
        address: StringAddress(digit_value(a) * 10 + digit_value(b)),
        code: u16::from(c) * 256 + u16::from(d),
    }
}

#[tactic(auto, unfolding(machine::specs::Strings::to_every))]
pub fn to_every(header: Header) -> bool
    ensures { result ≡ to_every header }
{
    header.address.0 == StringAddress::EVERY
}

#[tactic(auto, unfolding(machine::specs::Strings::addressed, laws::specs::Tests::both, laws::specs::Tests::either))]
fn addressed(own: DriveAddress, header: Header) -> bool
    ensures { result ≡ addressed_of own header }
{
    header.digits && (header.address.0 == u16::from(own.0) || to_every(header))
}

#[tactic(auto, unfolding(machine::specs::Strings::is_stop, machine::specs::Commands::is_code, fields::specs::Names::pair_of, laws::specs::Text::bytes, laws::specs::Tests::either))]
fn is_stop(code: u16) -> bool
    ensures { result ≡ is_stop code }
{
    (code == codes::EE) | (code == codes::ES)
}

// A busy drive hears only the stops.
#[tactic(auto, unfolding(machine::specs::Strings::free, laws::specs::Tests::either))]
fn free(state: State, header: Header) -> bool
    ensures { result ≡ free_of state header }
{
    idle(state) || is_stop(header.code)
}

// To every drive go only WS, EE and ES.
#[tactic(auto, unfolding(machine::specs::Strings::permitted, machine::specs::Commands::is_code, fields::specs::Names::pair_of, laws::specs::Text::bytes, laws::specs::Tests::either))]
fn permitted(header: Header) -> bool
    ensures { result ≡ permitted_of header }
{
    !to_every(header) || header.code == codes::WS || is_stop(header.code)
}

// Whether the drive hears a string of this header.
#[tactic(auto, unfolding(machine::specs::Strings::admitted, laws::specs::Tests::both))]
pub fn admitted(header: Header, state: State) -> bool
    ensures { result ≡ admitted_of header state }
{
    addressed(state.presets.address, header) && free(state, header) && permitted(header)
}

// What a string of this code asks for: with its 13, one over 64 bytes is wrong.
pub fn judged(length: usize, code: u16, s: &[u8]) -> Command
    ensures value { result ≡ choose (ltb 64 length) Wrong (command_by code s.now) }
    ensures named { placed result ≡ true }
{
    if LONGEST < length {
        return Command::Wrong;
    }
    parser::read_command(code, s)
}

// A PS is wrong while input EE is on.
#[tactic(auto, unfolding(machine::specs::Strings::allowed, machine::specs::Strings::is_start, laws::specs::Tests::choose, laws::specs::Tests::both))]
pub fn allowed(command: Command, state: State) -> Command
    ensures { result ≡ allowed_of command state }
{
    if state.inputs[State::EE] && matches!(command, Command::Start { .. }) {
        return Command::Wrong;
    }
    command
}

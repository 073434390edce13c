// The words of a list that need the whole drive: a string, a wait.
ghost use Rattle.std.specs.Prelude.{◌≡◌, true, ◌+◌, ◌≤◌, length, replicate};
ghost use Rattle.machine.specs.Soundness.{sound as sound_of};
ghost use Rattle.machine.specs.Calls.Call.{SendString, Wait};
ghost use Rattle.encoding.specs.Words.{size_of, room_of};
ghost use Rattle.lists.specs.Listing.{whole_word};
ghost use Rattle.lists.specs.Listing.Word.{Called};
ghost use Rattle.lists.specs.Giving.{Carries};

use encoding::Head;
use machine::Machine;
use operations::results::Refusal;
use operations::signals::string;
use operations::time::wait;
use seen::endings::put_ending;
use seen::numbers::put_byte;
use units::Milliseconds;

// A string: its refusal, the length of the answer, and the answer, which is written where it stays.
fn tell_string(machine: &mut Machine, text: &[u8], room: u8, buffer: &mut [u8], at: usize) -> usize
    requires machine_value { sound_of machine.old ≡ true }
    requires at_in_bounds { at + 66 ≤ length buffer.old }
    ensures carries { Carries (Called (SendString text.now (replicate room 0))) machine.old machine.new
        buffer.old buffer.new at result }
    ensures room { result ≤ at + 66 }
{
    if room < 64 {
        let begun = put_byte(buffer, at, Refusal::ShortBuffer.number());
        return put_byte(buffer, begun, 0);
    }
    // 64 bytes are enough, so this string is not refused.
    let length = string(machine, text, &mut buffer[at + 2..at + 66]).unwrap();
    put_byte(buffer, at, 0);
    put_byte(buffer, at + 1, length as u8);
    at + 2 + length
}

// A wait: its refusal, its end, and how many milliseconds it gave.
fn tell_wait(machine: &mut Machine, budget: u32, buffer: &mut [u8], at: usize) -> usize
    requires machine_value { sound_of machine.old ≡ true }
    requires at_in_bounds { at + 6 ≤ length buffer.old }
    ensures carries { Carries (Called (Wait budget)) machine.old machine.new
        buffer.old buffer.new at result }
    ensures room { result ≡ at + 6 }
{
    match wait(machine, Milliseconds(budget)) {
        Ok(ending) => {
            let begun = put_byte(buffer, at, 0);
            put_ending(buffer, begun, Some(ending))
        }
        Err(refusal) => {
            let begun = put_byte(buffer, at, refusal.number());
            put_ending(buffer, begun, None)
        }
    }
}

// A word that needs the whole drive; the bytes of the word are lent with it.
#[tactic(auto, unfolding(encoding::specs::Words::size_of, encoding::specs::Words::room_of))]
pub fn tell(machine: &mut Machine, head: Head, word: &[u8], buffer: &mut [u8], at: usize) -> usize
    requires machine_value { sound_of machine.old ≡ true }
    requires word_len { length word.now ≡ size_of head }
    requires head_in_bounds { at + room_of head ≤ length buffer.old }
    ensures carries { Carries (whole_word head word.now) machine.old machine.new
        buffer.old buffer.new at result }
    ensures room { result ≤ at + room_of head }
{
    match head {
        Head::NoWord => at,
        Head::Text { room, length: _ } => tell_string(machine, &word[4..], room, buffer, at),
        Head::Inputs(_) => at,
        Head::Millisecond => at,
        Head::Step => at,
        Head::AtSpeed => at,
        Head::Halted => at,
        Head::Wait(budget) => tell_wait(machine, budget, buffer, at),
        Head::Order => at,
        Head::Travel(_) => at,
    }
}

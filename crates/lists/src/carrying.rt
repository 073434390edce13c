// The words of a list, one after another.
ghost use Rattle.std.specs.Prelude.{◌≡◌, true, Ok, ◌≤◌, length};
ghost use Rattle.machine.specs.Soundness.{sound as sound_of};
ghost use Rattle.encoding.specs.Refusing.{refusal_of};
ghost use Rattle.laws.specs.Writing.{Put};
ghost use Rattle.machine.specs.Calls.{after};
ghost use Rattle.lists.specs.Listing.{words_of, calls_of, bytes_of};

use crate::giving::{give, is_whole};
use crate::telling::tell;
use encoding::head_of;
use machine::Machine;

// The drive after a list, and how many bytes were seen.
#[derive(Clone, Copy)]
pub struct Carried {
    pub machine: Machine,
    pub written: usize,
}

// Carries out a list that was checked. The drive is sound. It comes by value: the proof needs the
// lengths of its arrays, which are not known of a record behind a `&mut`.
pub fn carry(machine: Machine, list: &[u8], buffer: &mut [u8]) -> Carried
    requires machine_value { sound_of machine ≡ true }
    requires list_value { refusal_of (length buffer.old) list.now ≡ Ok tt }
    ensures machine_value_2 { result.machine ≡ after (calls_of (words_of list.now) machine) machine }
    ensures bytes { Put buffer.old buffer.new
        (bytes_of (words_of list.now) machine) 0 result.written }
    ensures room { result.written ≤ length buffer.old }
{
    let mut machine = machine;
    let mut at = 0;
    let mut written = 0;
    // Each word says itself where the next one begins, so no range counts them.
    while at < list.len() {
        let head = head_of(&list[at..]);
        let size = head.size();
        if is_whole(head) {
            written = tell(&mut machine, head, &list[at..at + size], buffer, written);
        } else {
            let i = machine.state.running.cell.place();
            let cell = machine.cells[i];
            let j = machine.state.suspended.cell.place();
            let held = machine.cells[j];
            written = give(head, &mut machine.state, cell, held, buffer, written);
        }
        at += size;
    }
    Carried { machine, written }
}

// The answers to the strings of a part of the input.
ghost use Rattle.std.specs.Prelude.{◌≡◌, ◌+◌, ◌≤◌, length, take};
ghost use Rattle.machine.specs.Calls.{apply, next};
ghost use Rattle.machine.specs.Calls.Call.{SendString, Wait};
ghost use Rattle.machine.specs.Operations.{buffer_after};
ghost use Rattle.console.specs.Console.{console};
ghost use Rattle.console.specs.Serving.{Answers, Serves, at_work};

use crate::server::Server;
use drive::Drive;
use lines::gathering::front;
use lines::strings::take_string;
use units::Milliseconds;

// Gives a drive a string: how many bytes answer it. Nothing answers a refused one. The drive is lent,
// since one that is handed on in a result is copied once more.
#[tactic(auto, unfolding(drive::specs::Results::told_as, drive::specs::Results::length_of, drive::specs::Results::refused_as, machine::specs::Calls::next))]
fn tell(drive: &mut Drive, string: &[u8], buffer: &mut [u8]) -> usize
    ensures machine { drive.new.machine ≡
        next (SendString string.now buffer.old) drive.old.machine }
    ensures answer { take result buffer.new ≡
        (apply (SendString string.now buffer.old) drive.old.machine).answer }
    ensures buffer { buffer.new ≡
        buffer_after string.now buffer.old drive.old.machine }
{
    match drive.string(string, buffer) {
        Ok(told) => {
            *drive = told.drive;
            told.length
        }
        Err(refused) => {
            *drive = refused.drive;
            0
        }
    }
}

// A wait of 1,000.
#[tactic(auto, unfolding(drive::specs::Results::waited_as, drive::specs::Results::refused_as, machine::specs::Calls::next))]
fn wait(drive: &mut Drive)
    ensures { drive.new.machine ≡ next (Wait 1000) drive.old.machine }
{
    match drive.wait(Milliseconds(1000)) {
        Ok(waited) => *drive = waited.drive,
        Err(refused) => *drive = refused.drive,
    }
}

impl Server {
    // 01: "each given to one drive of address 00, then a wait of 1,000". Gives the drive the first n
    // bytes of the string's place and puts the answer behind the first bytes of the output; the
    // place after it. No string is under way then.
    fn answer(&mut self, n: usize, written: usize) -> usize
        requires { written + 64 ≤ 65536 }
        ensures { Answers (take n self.old.string) self.old.drive.machine
            self.old.out written self.new result }
    {
        let string = front(&self.string, n);
        let out = self.out.as_mut_slice();
        let length = tell(&mut self.drive, string, &mut out[written..written + 64]);
        wait(&mut self.drive);
        self.held = 0;
        written + length.min(64)
    }

    // Gives the drive each string that a part of the input completes, and puts the answers behind
    // each other; how many bytes they have. A part has at most 1,024 bytes, so it completes at most
    // 1,024 strings.
    pub fn serve(&mut self, part: &[u8]) -> usize
        requires { length part.now ≤ 1024 }
        ensures { Serves (console part.now (at_work self.old)) self.new result }
    {
        let mut written = 0;
        let mut at = 0;
        while at < part.len() {
            let taken = take_string(part, at, &mut self.string, self.held);
            // No `let .. else`: the proof loses the place that its pattern binds over the answer.
            if taken.next.is_none() {
                self.held = taken.length;
                return written;
            }
            written = self.answer(taken.length, written);
            at = taken.next.unwrap_or(part.len());
        }
        written
    }
}

// What is seen of calls, as words of their lines: refusal, answer, buffer, end, count, order and
// outputs.
use drive::Drive;
use drive::results::Ending;
use lines::gathering::{front, gather, gather_number};
use machine::State;
use observed::nets::gather_net;
use observed::orders::{gather_end, gather_order};
use observed::outputs::gather_outputs;
use observed::shown::{gather_hex, gather_shown};
use observed::sums::Sum;
use records::gather_record;
use std::io;
use totals::results::Sums;

// More bytes than one line has: an image of up to 1,413 bytes in hex.
const ROOM: usize = 4096;

// Where lines are gathered before they are written. What has no room is cut.
#[derive(Drop)]
pub struct Out {
    bytes: [u8; 65536],
    length: usize,
}

impl Out {
    pub fn new() -> Out {
        Out {
            bytes: [0; 65536],
            length: 0,
        }
    }

    pub fn flush(&mut self, rt: &impl Print) -> io::Result<()> {
        rt.write_all(front(&self.bytes, self.length))?;
        self.length = 0;
        Ok(())
    }

    // Makes room for a line.
    pub fn make_room(&mut self, rt: &impl Print) -> io::Result<()> {
        if self.bytes.len().saturating_sub(self.length) < ROOM {
            return self.flush(rt);
        }
        Ok(())
    }

    // Puts a piece that a function gathers behind the first bytes of a line.
    fn add<F: FnOnce(&mut [u8], usize) -> usize>(&mut self, piece: F)
        requires { F.IsAlwaysCallable piece }
    {
        self.length = piece(&mut self.bytes, self.length);
    }

    pub fn put(&mut self, piece: &[u8]) {
        self.add(|line, n| gather(line, n, piece));
    }

    // A number, and what follows it.
    pub fn put_number(&mut self, value: u32, behind: &[u8]) {
        self.add(|line, n| gather_number(line, n, value));
        self.put(behind);
    }

    // What is seen of a call that is not refused and shows nothing.
    pub fn put_nothing(&mut self) {
        self.put(b"- - - - -");
    }

    // The first two words of a string: its answer; silence is none.
    pub fn put_answer(&mut self, answer: &[u8]) {
        if answer.is_empty() {
            return self.put(b"- -");
        }
        self.put(b"- ");
        self.add(|line, n| gather_shown(line, n, answer));
    }

    // The words behind them: all of the buffer.
    pub fn put_buffer(&mut self, buffer: &[u8]) {
        self.put(b" ");
        self.put_number(Sum::new().with_all(buffer).sum, b" - -");
    }

    // How a wait ended, and how many milliseconds it gave.
    pub fn put_waited(&mut self, ending: Ending) {
        self.put(b"- - - ");
        self.add(|line, n| gather_end(line, n, ending.end));
        self.put(b" ");
        self.put_number(ending.given.0, b"");
    }

    pub fn put_rounded(&mut self, value: u16) {
        self.put(b"- ");
        self.put_number(value as u32, b" - - -");
    }

    // The length of all answers of a reading, and their weighted sum.
    pub fn put_sum(&mut self, sum: Sum) {
        self.put(b"- ");
        self.put_number(sum.count, b":");
        self.put_number(sum.sum, b" - - -");
    }

    // The net steps, and the milliseconds of delays.
    pub fn put_totals(&mut self, sums: Sums) {
        self.put(b"- ");
        self.add(|line, n| gather_net(line, n, sums.steps));
        self.put(b",");
        self.put_number(sums.delay.0, b" - - -");
    }

    // The record as integers, sound or not.
    pub fn put_record(&mut self, state: State) {
        self.put(b"- ");
        self.add(|line, n| gather_record(line, n, state));
        self.put(b" - - -");
    }

    // The bytes of an image.
    pub fn put_bytes(&mut self, image: &[u8]) {
        self.put(b"- ");
        self.add(|line, n| gather_hex(line, n, image));
        self.put(b" - - -");
    }

    // The last two words, order and outputs, and the line's end.
    pub fn put_drive(&mut self, drive: Drive) {
        self.put(b" ");
        match drive.order() {
            Ok(order) => self.add(|line, n| gather_order(line, n, order)),
            Err(refusal) => {
                self.put(b"!");
                self.put_number(refusal.number() as u32, b"");
            }
        }
        self.put(b" ");
        self.add(|line, n| gather_outputs(line, n, drive.machine.state.outputs));
        self.put(b"\n");
    }
}

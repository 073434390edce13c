// The examples of chapters 3, 4 and 5 of the maker's manual, run on the engine. The script on
// standard input has them as data, and its head says how they are written. For each paragraph one
// line says how many checks it passed, or which line of it failed and what came there.
#![tactic(auto)]

mod calls;
mod reporting;
mod score;
mod script;
mod texts;

use calls::{happen, say, wait};
use drive::Drive;
use filling::fill;
use lines::gathering::{front, gather};
use lines::words;
use reporting::{begin_paragraph, end_paragraph, report_line, tally};
use score::{Course, Score};
use script::{Line, line_of};
use std::io;
use texts::order_text;
use units::DriveAddress;

// How many bytes of the input are read at most; a script has fewer.
const ROOM: usize = 65536;

// Where the script stands, and at the front of a buffer the text of what was seen last.
#[derive(Clone, Copy)]
pub struct Bench {
    pub drive: Drive,
    pub score: Score,
    pub seen: [u8; 128],
}

// A paragraph starts with a fresh drive of address 00.
fn first_drive() -> Drive {
    Drive::fresh(DriveAddress(0)).unwrap_or_else(|refused| refused.drive)
}

impl Bench {
    fn new() -> Bench {
        Bench {
            drive: first_drive(),
            score: Score::new(),
            seen: [0; 128],
        }
    }

    fn came(&self, n: usize) -> &[u8] {
        front(&self.seen, n)
    }

    fn wrong(&mut self, why: &[u8]) -> Result<(), usize> {
        Err(gather(&mut self.seen, 0, why))
    }

    // Holds so many bytes of what was seen against what is expected.
    fn compare(&mut self, n: usize, expected: &[u8]) -> Result<(), usize> {
        if self.came(n) != expected {
            return Err(n);
        }
        self.score.pass_check();
        Ok(())
    }

    // Does what a line of a paragraph says; an error says how many bytes there are of what came in
    // place of what was expected. An answer has to be looked at before anything else is done.
    fn perform(&mut self, line: Option<Line<'_>>) -> Result<(), usize> {
        if let Course::Unseen(n) = self.score.course {
            let Some(Line::Look(expected)) = line else {
                return self.wrong(b"an answer that is not looked at");
            };
            return self.compare(n, expected);
        }
        let Some(line) = line else {
            return self.wrong(b"a line that is not understood");
        };
        match line {
            Line::Say(text) => {
                let n = say(&mut self.drive, text, &mut self.seen);
                self.score.course = Course::Unseen(n);
                Ok(())
            }
            Line::Look(_) => self.wrong(b"no answer to look at"),
            Line::Happens(event, times) => { happen(&mut self.drive, event, times, &mut self.seen) }
            Line::Order(expected) => {
                let n = order_text(&mut self.seen, self.drive.order());
                self.compare(n, expected)
            }
            Line::Wait(budget, expected) => {
                let n = wait(&mut self.drive, budget, &mut self.seen);
                self.compare(n, expected)
            }
        }
    }

    // Takes a line of the script. One that begins with `;` and an empty one are remarks, and what
    // follows a failed line of a paragraph is passed over.
    fn take(&mut self, rt: &impl Print, number: usize, line: &[u8]) -> io::Result<()> {
        let text = words::behind(line, 1);
        match (line, self.score.course) {
            ([] | [b';', ..], _) => Ok(()),
            ([b'#', ..], _) => {
                end_paragraph(rt, &mut self.score)?;
                self.drive = first_drive();
                begin_paragraph(rt, &mut self.score, text)
            }
            (_, Course::Failed) => Ok(()),
            ([letter, ..], _) => {
                let Err(n) = self.perform(line_of(*letter, text)) else {
                    return Ok(());
                };
                self.score.course = Course::Failed;
                report_line(rt, number, line, self.came(n))
            }
        }
    }
}

// The script's lines, one after the other.
fn run(rt: &impl Print, script: &[u8]) -> io::Result<Score> {
    let mut bench = Bench::new();
    for (k, line) in script.split(|byte| *byte == b'\n').enumerate() {
        bench.take(rt, k.wrapping_add(1), line)?;
    }
    end_paragraph(rt, &mut bench.score)?;
    Ok(bench.score)
}

fn main(rt: HostRuntime) -> io::Result<()> {
    let mut script = [0u8; ROOM];
    let n = fill(&mut rt.stdin(), &mut script);
    if n == ROOM {
        return println!(rt; "the script has more than 65535 bytes");
    }
    let score = run(&rt, &script[..n])?;
    tally(&rt, &score)
}

// The lines of standard input, gathered from blocks.
ghost use Rattle.std.specs.Prelude.{◌≤◌};

use lines::gathering::{front, gather};
use std::io;
use std::io::Read;

// More bytes than the longest line has: an image of 2,048 bytes in hex.
const LONGEST: usize = 8192;

#[derive(Drop)]
pub struct Input {
    block: [u8; 65536],
    // What is left of the block: from a place on to another.
    at: usize,
    end: usize,
    line: [u8; LONGEST],
    // How many bytes of the line under way are kept; one that has no room fills its buffer.
    kept: usize,
    // How many lines there were.
    pub lines: u64,
    ended: bool,
    ghost order: { at ≤ end },
    ghost within: { end ≤ 65536 },
}

// What one step on brings.
#[derive(Clone, Copy)]
pub enum Came {
    // A part of a line, or a block.
    Part,
    // A line of so many bytes.
    Line(usize),
    End,
}

impl Input {
    pub fn new() -> Input {
        Input {
            block: [0; 65536],
            at: 0,
            end: 0,
            line: [0; LONGEST],
            kept: 0,
            lines: 0,
            ended: false,
        }
    }

    // Whether the next step reads a block.
    pub fn is_spent(&self) -> bool {
        self.at == self.end
    }

    // A line of so many bytes; nothing where it was too long.
    pub fn line(&self, n: usize) -> Option<&[u8]> {
        if LONGEST <= n {
            return None;
        }
        Some(front(&self.line, n))
    }

    // The line under way is whole.
    fn whole(&mut self) -> Came {
        let n = self.kept;
        self.kept = 0;
        self.lines = self.lines.wrapping_add(1);
        Came::Line(n)
    }

    // Reads a block. The last line may lack its line feed.
    fn fill(&mut self, source: &mut impl Read) -> io::Result<Came> {
        if self.ended {
            return Ok(Came::End);
        }
        let n = source.read(&mut self.block)?;
        self.at = 0;
        self.end = n;
        if 0 < n {
            return Ok(Came::Part);
        }
        self.ended = true;
        if 0 < self.kept {
            return Ok(self.whole());
        }
        Ok(Came::End)
    }

    // Takes the block's bytes up to the next line feed, or all.
    fn take(&mut self) -> Came {
        let block = self.block.as_slice();
        let end = scan::find(block, self.at, self.end, b'\n');
        self.kept = gather(&mut self.line, self.kept, &block[self.at..end]);
        self.at = end;
        if end == self.end {
            return Came::Part;
        }
        self.at = end + 1;
        self.whole()
    }

    // One step on: what is left of the block is taken, or another block is read.
    pub fn advance(&mut self, source: &mut impl Read) -> io::Result<Came> {
        if self.is_spent() {
            return self.fill(source);
        }
        Ok(self.take())
    }
}

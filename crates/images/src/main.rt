// Reads an image from standard input, loads it, and writes the image of the drive that it gives to
// standard output. What is not an image is refused on standard error, and nothing is written.
#![tactic(auto)]

use filling::fill;
use image::reading::read;
use image::results::Refusal;
use image::writing::write;
use lines::gathering::front;
use std::io;

// More bytes than the longest image has.
const LONGEST: usize = 2048;

// How many bytes of the input are read at most. A longer input is no image, whatever follows them.
const ROOM: usize = 4096;

fn write_again(bytes: &[u8], buffer: &mut [u8]) -> Result<usize, Refusal> {
    write(read(bytes).map_err(|refused| refused.refusal)?, buffer)
}

fn main(rt: HostRuntime) -> io::Result<()> {
    let mut space = [0u8; ROOM];
    let n = fill(&mut rt.stdin(), &mut space);
    let mut buffer = [0u8; LONGEST];
    match write_again(&space[..n], &mut buffer) {
        Ok(length) => rt.write_all(front(&buffer, length)),
        Err(refusal) => eprintln!(rt; "refused {}", refusal.number()),
    }
}

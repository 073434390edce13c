// 01's console: strings from standard input, each given to one drive of address 00, then a wait
// of 1,000; answers to standard output.
#![tactic(auto)]

ghost use Rattle.std.specs.Prelude.{◌≡◌, ◌≤◌, length, take};
ghost use Rattle.machine.specs.Record.{fresh};
ghost use Rattle.console.specs.Console.{console};
ghost use Rattle.console.specs.Serving.{Exchanges, Reachable, Serves, at_work};

mod server;
mod serving;
mod theorems;

use drive::Drive;
use lines::gathering::front;
use server::Server;
use std::io::{Read, Write};
use units::DriveAddress;

// How many bytes were handed to standard output, and whether it took them all.
#[derive(Clone, Copy)]
pub struct Handed {
    pub count: usize,
    pub taken: bool,
}

// How many bytes were read and how many handed to standard output, and whether to go on.
#[derive(Clone, Copy)]
pub struct Exchange {
    pub read: usize,
    pub written: usize,
    pub going: bool,
}

// Hands the first n bytes of the output to standard output. No contract can say what becomes of
// them there; what is promised is how many they are.
fn hand_over<W: Write>(output: &mut W, out: &[u8], n: usize) -> Handed
    ensures { result.count ≡ length (take n out.now) }
{
    let answers = front(out, n);
    Handed {
        count: answers.len(),
        taken: output.write_all(answers).is_ok(),
    }
}

// Answers the strings that a part of the input completes. An output that takes no more closes the
// exchange.
fn answer_part<W: Write>(output: &mut W, server: &mut Server, part: &[u8]) -> Exchange
    requires { length part.now ≤ 1024 }
    ensures serves { Serves (console part.now (at_work server.old)) server.new result.written }
    ensures read { result.read ≡ length part.now }
{
    let written = server.serve(part);
    let handed = hand_over(output, &server.out, written);
    Exchange {
        read: part.len(),
        written: handed.count,
        going: handed.taken,
    }
}

// Reads once, and answers what came. The end of the input, or a read that fails, closes.
fn read_part<R: Read, W: Write>(
    input: &mut R,
    output: &mut W,
    server: &mut Server,
    part: &mut [u8],
) -> Exchange
    requires within { length part.old ≤ 1024 }
    requires reachable { Reachable server.old }
    ensures { Exchanges server.old (take result.read part.new) server.new result }
{
    let count = input.read(part).unwrap_or(0);
    if count == 0 {
        return Exchange {
            read: 0,
            written: 0,
            going: false,
        };
    }
    answer_part(output, server, front(part, count))
}

// A part has at most 1,024 bytes: 64 bytes of answer to each fit the output's buffer. A proved loop
// has to end, and nothing says that the input does. So the loop counts its turns, up to a number that
// no run reaches.
fn run<R: Read, W: Write>(input: &mut R, output: &mut W, drive: Drive)
    requires { drive.machine ≡ fresh (record { 0 = 0 }) }
{
    let mut server = Server {
        drive,
        held: 0,
        string: [0; 65],
        out: [0; 65536],
    };
    let mut part = [0u8; 1024];
    for _ in 0..0x4000_0000_0000_0000_u64 {
        let exchange = read_part(input, output, &mut server, &mut part);
        if !exchange.going {
            return;
        }
    }
}

#[tactic(auto, unfolding(drive::specs::Results::made_as, drive::specs::Results::machine_of, machine::specs::Operations::made, laws::specs::Tests::choose))]
fn main(rt: HostRuntime) {
    let drive = Drive::fresh(DriveAddress(0)).unwrap();
    run(&mut rt.stdin(), &mut rt.stdout(), drive);
}

// Benchmarks of the public calls: reads one line `NAME COUNT` from standard input, makes that many
// calls on one drive, and writes a sum of what each call showed. bin/bench times it beside the
// second implementation, which does the same for the same line.
#![tactic(auto)]

mod calls;
mod memory;
mod sums;

use calls::{Event, Place};
use decimal::parse::read_number;
use drive::Drive;
use filling::fill;
use memory::{Chain, chained};
use std::io;
use sums::added;
use units::Milliseconds;

// How many bytes of the input are read at most.
const ROOM: usize = 4096;

// An idle drive: a request that changes nothing stands for a start.
fn idle() -> Drive {
    memory::started(b"00QA\r")
}

// A drive that runs the program at a cell, after one millisecond.
fn looping() -> Drive {
    memory::started(b"00PS,200\r")
}

fn delaying() -> Drive {
    memory::started(b"00PS,210\r")
}

fn delaying_longest() -> Drive {
    memory::started(b"00PS,211\r")
}

fn moving() -> Drive {
    memory::started(b"00PS,220\r")
}

// A string that is told again and again.
fn told<const N: usize>(mut text: [u8; N], count: u32) -> u32 {
    calls::strings(&mut text, idle(), count)
}

// Two ways from a WN to the chain: from cell 101 it can still be reached when the one is taken off.
fn without_way(chain: Chain, count: u32) -> u32 {
    calls::edits(chained(chain, 2), b"00WN,100,00,000\r", count)
}

// Every benchmark, in the order in which `all` makes them.
const NAMES: [&[u8]; 28] = [
    b"wn",
    b"qm",
    b"qa",
    b"small",
    b"ten",
    b"negative",
    b"inputs",
    b"delay",
    b"cell",
    b"step",
    b"refused",
    b"halted",
    b"order",
    b"wait",
    b"long",
    b"short",
    b"longest",
    b"cells",
    b"save",
    b"load",
    b"totals",
    b"kept",
    b"addup",
    b"adddown",
    b"addround",
    b"offup",
    b"offdown",
    b"offround",
];

fn one(name: &[u8], count: u32) -> u32 {
    match name {
        b"wn" => told(*b"00WN,100,01,10,20,+5000,x1,101\r", count),
        b"qm" => told(*b"00QM,100\r", count),
        b"qa" => told(*b"00QA\r", count),
        b"small" => calls::positions(Place::Small, idle(), count),
        b"ten" => calls::positions(Place::Ten, idle(), count),
        b"negative" => calls::positions(Place::Negative, idle(), count),
        b"inputs" => calls::events(Event::Inputs, idle(), count),
        b"delay" => calls::events(Event::Millisecond, delaying(), count),
        b"cell" => calls::events(Event::Millisecond, looping(), count),
        b"step" => calls::events(Event::Step, moving(), count),
        b"refused" => calls::events(Event::Step, idle(), count),
        b"halted" => calls::events(Event::Halted, idle(), count),
        b"order" => calls::orders(moving(), count),
        b"cells" => calls::cells(idle()),
        b"wait" => calls::waits(looping(), Milliseconds(1_000_000), count),
        b"long" => calls::waits(delaying(), Milliseconds(1_000_000), count),
        b"short" => calls::waits(delaying(), Milliseconds(60_000), count),
        b"longest" => calls::waits(delaying_longest(), Milliseconds(1_000_000), count),
        b"save" => calls::saves(idle(), count),
        b"load" => calls::loads(idle(), count),
        b"totals" => calls::totals(memory::walking(), count),
        b"kept" => calls::edits(chained(Chain::Up, 1), b"00WN,100,65,5,116\r", count),
        b"addup" => calls::edits(chained(Chain::Up, 0), b"00WN,100,00,116\r", count),
        b"adddown" => calls::edits(chained(Chain::Down, 0), b"00WN,100,00,230\r", count),
        b"addround" => calls::edits(chained(Chain::Round, 0), b"00WN,100,00,116\r", count),
        b"offup" => without_way(Chain::Up, count),
        b"offdown" => without_way(Chain::Down, count),
        b"offround" => without_way(Chain::Round, count),
        _ => 0,
    }
}

// A benchmark, or all of them, one after the other.
fn named(name: &[u8], count: u32) -> u32 {
    match name {
        b"all" => NAMES
            .iter()
            .fold(0, |sum, &name| added(sum, one(name, count))),
        _ => one(name, count),
    }
}

// The line, without its line feed.
fn asked(line: &[u8]) -> u32 {
    let end = scan::find(line, 0, line.len(), b'\n');
    let at = scan::find(line, 0, end, b' ');
    if at < end {
        let count = read_number(&line[at + 1..end]).unwrap_or(0);
        return named(&line[..at], count);
    }
    0
}

fn main(rt: HostRuntime) -> io::Result<()> {
    let mut line = [0u8; ROOM];
    let n = fill(&mut rt.stdin(), &mut line);
    let sum = asked(&line[..n]);
    println!(rt; "{sum}")
}

// The loops of calls, which are timed, but for the one over the cells. The drive that a timed call
// hands back goes into the next one, but for a string with a map.
ghost use Rattle.std.specs.Prelude.{◌<◌};

use crate::sums::{
    added, answer_seen, image_seen, last_seen, loaded_seen, map_seen, order_seen, seen, totals_seen,
};
use cellmap::CellMap;
use drive::Drive;
use drive::results::Refused;
use image::reading::read;
use image::writing::write;
use lines::gathering::front;
use observed::sums::Sum;
use totals::along;
use units::{CellAddress, Milliseconds};

#[derive(Clone, Copy)]
pub enum Event {
    Inputs,
    Millisecond,
    Step,
    Halted,
}

// Positions of one digit, of ten digits, and of six under zero.
#[derive(Clone, Copy)]
pub enum Place {
    Small,
    Ten,
    Negative,
}

fn digit(number: u32) -> u8 {
    b'0' + (number % 10) as u8
}

// The eighth byte of a string counts: a WN or a QM goes over ten cells.
fn set_digit(text: &mut [u8], k: u32) {
    if let Some(byte) = text.get_mut(7) {
        *byte = digit(k);
    }
}

// Gives a drive a string, and hands back how many bytes answer it.
fn tell(drive: &mut Drive, text: &[u8], buffer: &mut [u8]) -> usize {
    let Ok(told) = drive.string(text, buffer) else {
        return 0;
    };
    *drive = told.drive;
    told.length
}

pub fn strings(text: &mut [u8], mut drive: Drive, count: u32) -> u32 {
    let mut buffer = [0u8; 64];
    (0..count).fold(0, |sum, k| {
        set_digit(text, k);
        let length = tell(&mut drive, text, &mut buffer);
        added(sum, answer_seen(length, &buffer))
    })
}

// A number below a limit that tells nothing of the next one.
fn scattered(k: u32, limit: u32) -> u32
    requires { 0 < limit }
    ensures { result < limit }
{
    (k as u64 * 2_654_435_761 % limit as u64) as u32
}

// A position, as 32 bits.
fn position_at(place: Place, k: u32) -> u32 {
    match place {
        Place::Small => scattered(k, 10),
        Place::Ten => 1_000_000_000 + scattered(k, 1_147_483_648),
        Place::Negative => 0xfffe_7960 - scattered(k, 900_000),
    }
}

pub fn positions(place: Place, mut drive: Drive, count: u32) -> u32 {
    let mut buffer = [0u8; 64];
    (0..count).fold(0, |sum, k| {
        drive.machine.state.position.0 = position_at(place, k);
        let length = tell(&mut drive, b"00QA\r", &mut buffer);
        added(sum, last_seen(length, &buffer))
    })
}

// A QM of a cell.
fn request(address: u8) -> [u8; 9] {
    let mut text = *b"00QM,000\r";
    text[5] += address / 100;
    text[6] += address / 10 % 10;
    text[7] += address % 10;
    text
}

// Every byte that a cell shows.
fn cell_seen(mut drive: Drive, address: u8) -> u32 {
    let mut buffer = [0u8; 64];
    let length = tell(&mut drive, &request(address), &mut buffer);
    Sum::new().with_all(front(&buffer, length)).sum
}

// Each cell once: the sum then says which memory the calls are made on.
pub fn cells(drive: Drive) -> u32 {
    (Drive::FIRST..=Drive::LAST).fold(0, |sum, address| added(sum, cell_seen(drive, address)))
}

// The inputs I0 to I2 count, so that no word starts or stops a program.
fn given(event: Event, drive: Drive, k: u32) -> Result<Drive, Refused> {
    match event {
        Event::Inputs => drive.inputs((k % 8) as u16),
        Event::Millisecond => drive.millisecond(),
        Event::Step => drive.step(),
        Event::Halted => drive.halted(),
    }
}

pub fn events(event: Event, mut drive: Drive, count: u32) -> u32 {
    (0..count).fold(0, |sum, k| {
        let number = match given(event, drive, k) {
            Ok(next) => {
                drive = next;
                0
            }
            Err(refused) => refused.refusal.number(),
        };
        added(sum, seen(number, drive.machine.state))
    })
}

// The milliseconds of each wait count too.
pub fn waits(mut drive: Drive, budget: Milliseconds, count: u32) -> u32 {
    (0..count).fold(0, |sum, _| {
        let (milliseconds, number) = match drive.wait(budget) {
            Ok(waited) => {
                drive = waited.drive;
                (waited.ending.given.0, 0)
            }
            Err(refused) => (0, refused.refusal.number()),
        };
        added(added(sum, milliseconds), seen(number, drive.machine.state))
    })
}

// Calls on one drive that they leave as it is. Its IN counts, so that none is like the one before.
fn varied<F: FnMut(u32, &Drive) -> u32>(mut drive: Drive, count: u32, mut shown: F) -> u32
    requires { F.IsAlwaysCallable shown }
{
    let mut sum = 0;
    for k in 0..count {
        drive.machine.state.presets.current = (k % 4) as u8;
        sum = shown(sum, &drive);
    }
    sum
}

pub fn orders(drive: Drive, count: u32) -> u32 {
    varied(
        drive,
        count,
        |sum, drive| added(sum, drive.order().map_or(0, order_seen)),
    )
}

pub fn saves(drive: Drive, count: u32) -> u32 {
    let mut buffer = [0u8; 2048];
    varied(drive, count, |sum, drive| {
        let length = write(*drive, &mut buffer).unwrap_or(0);
        added(sum, image_seen(length, &buffer))
    })
}

// IN counts in the image, so that no drive is the one before it.
pub fn loads(drive: Drive, count: u32) -> u32 {
    let mut buffer = [0u8; 2048];
    let length = write(drive, &mut buffer).unwrap_or(0);
    (0..count).fold(0, |sum, k| {
        buffer[1] = (k % 4) as u8;
        let loaded = read(front(&buffer, length));
        added(sum, loaded.map_or(0, loaded_seen))
    })
}

pub fn totals(drive: Drive, count: u32) -> u32 {
    varied(
        drive,
        count,
        |sum, drive| totals_seen(sum, along(drive, CellAddress(100))),
    )
}

// What is seen of a string, and of a copy of the map after it.
fn edited(drive: Drive, mut used: CellMap, text: &[u8]) -> u32 {
    let mut buffer = [0u8; 64];
    let told = usage::string(drive, &mut used, text, &mut buffer);
    map_seen(told.map_or(0, |told| told.length), &used)
}

// A WN that is told again and again, with the map of the drive; memory and map are the same each
// time. The sum says which memory it is.
pub fn edits(drive: Drive, text: &[u8], count: u32) -> u32 {
    let mut used = [false; 131];
    usage::count(&drive, &mut used);
    let sum = varied(
        drive,
        count,
        |sum, drive| added(sum, edited(*drive, used, text)),
    );
    added(cells(drive), sum)
}

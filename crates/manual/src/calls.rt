// What a line of the script does with the drive, and the text of what came.
use crate::script::Event;
use crate::texts::{answer_text, ending_text, refusal_text};
use drive::Drive;
use drive::results::Refused;
use lines::gathering::{front, gather};
use units::Milliseconds;

// Gives the drive a string, and hands back how many bytes there are of its answer as text.
pub fn say(drive: &mut Drive, text: &[u8], seen: &mut [u8]) -> usize {
    let mut string = [0u8; 128];
    let n = gather(&mut string, 0, text);
    let whole = gather(&mut string, n, b"\r");
    let mut buffer = [0u8; 64];
    match drive.string(front(&string, whole), &mut buffer) {
        Ok(told) => {
            *drive = told.drive;
            answer_text(seen, front(&buffer, told.length))
        }
        Err(refused) => refusal_text(seen, refused.refusal),
    }
}

// Gives the drive a wait, and hands back how many bytes say how it ended.
pub fn wait(drive: &mut Drive, budget: Milliseconds, seen: &mut [u8]) -> usize {
    match drive.wait(budget) {
        Ok(waited) => {
            *drive = waited.drive;
            ending_text(seen, waited.ending)
        }
        Err(refused) => refusal_text(seen, refused.refusal),
    }
}

fn event(drive: Drive, event: Event) -> Result<Drive, Refused> {
    match event {
        Event::Millisecond => drive.millisecond(),
        Event::Step => drive.step(),
        Event::AtSpeed => drive.at_speed(),
        Event::Halted => drive.halted(),
        Event::Inputs(word) => drive.inputs(word),
        Event::Fresh(address) => Drive::fresh(address),
    }
}

// An event so many times, or the text of its refusal. No example has one that is refused.
pub fn happen(drive: &mut Drive, e: Event, times: u32, seen: &mut [u8]) -> Result<(), usize> {
    for _ in 0..times {
        match event(*drive, e) {
            Ok(next) => *drive = next,
            Err(refused) => return Err(refusal_text(seen, refused.refusal)),
        }
    }
    Ok(())
}

// The calls, each with the first five words of what is seen of it: refusal, answer, buffer, end and
// count.
use crate::refused::Number;
use crate::seen::Out;
use crate::{reading, used};
use cellmap::CellMap;
use drive::Drive;
use drive::results::{Refusal, Refused};
use lines::gathering::front;
use script::call::{Call, Event, Look, Write};
use units::{CellAddress, DriveAddress, Milliseconds};

// The first bytes of a buffer, all of it where it has no more.
fn lent(space: &mut [u8], n: usize) -> &mut [u8] {
    let most = n.min(space.len());
    &mut space[..most]
}

// An address above 255 is refused as 255 is.
pub fn fresh(number: u32) -> Result<Drive, Refused> {
    Drive::fresh(DriveAddress(number.min(255) as u8))
}

// A word above 65535 is refused as 65535 is.
fn happens(drive: Drive, event: Event) -> Result<Drive, Refused> {
    match event {
        Event::Inputs(number) => drive.inputs(number.min(65535) as u16),
        Event::Millisecond => drive.millisecond(),
        Event::Step => drive.step(),
        Event::AtSpeed => drive.at_speed(),
        Event::Halted => drive.halted(),
    }
}

// A drive, and the map of its used cells.
#[derive(Drop)]
pub struct Player {
    drive: Drive,
    used: CellMap,
}

impl Player {
    pub fn new(drive: Drive) -> Player {
        let mut used = [false; 131];
        usage::count(&drive, &mut used);
        Player { drive, used }
    }

    // A string, with a buffer of some size, each byte of one value.
    fn tell(&mut self, string: &[u8], size: usize, fill: u8, out: &mut Out) {
        let mut space = [fill; 256];
        let buffer = lent(&mut space, size);
        match usage::string(self.drive, &mut self.used, string, buffer) {
            Ok(told) => {
                self.drive = told.drive;
                out.put_answer(front(buffer, told.length));
            }
            Err(refused) => out.put_number(refused.refusal.number() as u32, b" -"),
        }
        out.put_buffer(buffer);
    }

    // The image of the drive, into a buffer of some size, each byte of one value.
    fn save(&self, size: usize, fill: u8, out: &mut Out) {
        let mut space = [fill; 2048];
        let buffer = lent(&mut space, size);
        match image::writing::write(self.drive, buffer) {
            Ok(n) => {
                out.put(b"- ");
                out.put_number(u32::try_from(n).unwrap_or(u32::MAX), b"");
            }
            Err(refusal) => out.put_number(refusal.number() as u32, b" -"),
        }
        out.put_buffer(buffer);
    }

    fn wait(&mut self, budget: u32, out: &mut Out) -> Result<(), Number> {
        let waited = self.drive.wait(Milliseconds(budget))?;
        self.drive = waited.drive;
        out.put_waited(waited.ending);
        Ok(())
    }

    // The map as it is kept beside the drive; of an unsound drive the refusal.
    fn put_used(&self, out: &mut Out) -> Result<(), Number> {
        if !soundness::sound(self.drive.machine) {
            return Err(Refusal::Unsound.into());
        }
        used::put_map(out, &self.used);
        Ok(())
    }

    // The image, in a buffer that is longer than any.
    fn put_image(&self, out: &mut Out) -> Result<(), Number> {
        let mut buffer = [0u8; 2048];
        let n = image::writing::write(self.drive, &mut buffer)?;
        out.put_bytes(front(&buffer, n));
        Ok(())
    }

    // What leaves the drive as it is. A cell above 255 is refused as 255 is.
    fn look(&self, look: Look, out: &mut Out) -> Result<(), Number> {
        match look {
            Look::Order => {
                self.drive.order()?;
                out.put_nothing();
            }
            Look::Rounding(number) => out.put_rounded(frequency::round(number)?),
            Look::Reading => out.put_sum(reading::read_all(self.drive)?),
            Look::Totals(number) => {
                let cell = CellAddress(number.min(255) as u8);
                out.put_totals(totals::along(&self.drive, cell)?);
            }
            Look::Used => self.put_used(out)?,
            Look::Record => out.put_record(self.drive.machine.state),
            Look::Image => self.put_image(out)?,
        }
        Ok(())
    }

    // A record that cannot hold the value leaves the drive as it was.
    fn write(&mut self, write: Write, numbers: [u64; 7], out: &mut Out) {
        let machine = self.drive.machine;
        let written = match write {
            Write::Field { place, value } => raw::write_field(machine, place, value),
            Write::Output { place, value } => raw::write_output(machine, place, value),
            Write::Cell { place } => raw::write_cell(machine, place, numbers),
        };
        let Some(machine) = written else {
            return out.put(b"- unrepresentable - - -");
        };
        *self = Player::new(Drive { machine });
        if soundness::sound(machine) {
            return out.put(b"- sound - - -");
        }
        out.put(b"- unsound - - -");
    }

    // A refused fresh drive, or image, leaves the drive before in use.
    fn act(
        &mut self,
        call: Call,
        text: &[u8; 2048],
        numbers: [u64; 7],
        out: &mut Out,
    ) -> Result<(), Number> {
        match call {
            Call::Comment => {}
            Call::Fresh(number) => {
                *self = Player::new(fresh(number)?);
                out.put_nothing();
            }
            Call::Tell { length, size, fill } => self.tell(front(text, length), size, fill, out),
            Call::Happens(event) => {
                self.drive = happens(self.drive, event)?;
                out.put_nothing();
            }
            Call::Wait(budget) => self.wait(budget, out)?,
            Call::Looks(look) => self.look(look, out)?,
            Call::Writes(write) => self.write(write, numbers, out),
            Call::Save { size, fill } => self.save(size, fill, out),
            Call::Load { length } => {
                *self = Player::new(image::reading::read(front(text, length))?);
                out.put_nothing();
            }
        }
        Ok(())
    }

    // Carries out a call, and puts the line of what is seen of it.
    pub fn perform(&mut self, call: Call, text: &[u8; 2048], numbers: [u64; 7], out: &mut Out) {
        if let Err(Number(number)) = self.act(call, text, numbers, out) {
            out.put_number(number as u32, b" - - - -");
        }
        out.put_drive(self.drive);
    }
}

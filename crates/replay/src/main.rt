// Reads a script of calls from standard input, puts a drive through them, and writes one line of
// observations for each call to standard output. A malformed line is named on standard error and
// ends the run.
#![tactic(auto)]

mod complaints;
mod input;
mod performed;
mod reading;
mod refused;
mod seen;
mod used;

use input::{Came, Input};
use performed::{Player, fresh};
use script::call::{Call, Complaint};
use script::parse;
use seen::Out;
use std::io;
use std::io::Read;

// The drive that the first call makes, which is an F that is not refused.
fn first(call: Call) -> Result<Player, Complaint> {
    let Call::Fresh(number) = call else {
        return Err(Complaint::NoDrive);
    };
    let drive = fresh(number).map_err(|_| Complaint::NoDrive)?;
    Ok(Player::new(drive))
}

// Carries out the call of a line, and puts what is seen of it. A comment is none.
fn take(player: &mut Option<Player>, line: Option<&[u8]>, out: &mut Out) -> Result<(), Complaint> {
    let line = line.ok_or(Complaint::LineTooLong)?;
    let mut text = [0u8; 2048];
    let mut numbers = [0u64; 7];
    let call = parse::parse(line, &mut text, &mut numbers)?;
    if matches!(call, Call::Comment) {
        return Ok(());
    }
    if player.is_none() {
        *player = Some(first(call)?);
    }
    if let Some(player) = player {
        player.perform(call, &text, numbers, out);
    }
    Ok(())
}

// What was seen is handed over before more is read, so that one who gives a call at a time gets its
// line. Nothing says that an input ends, so the turns are counted, up to a number that no script
// uses up.
fn replay(
    rt: &(impl Print + Eprint),
    source: &mut impl Read,
    input: &mut Input,
    out: &mut Out,
) -> io::Result<()> {
    let mut player = None;
    for _ in 0..u64::MAX {
        if input.is_spent() {
            out.flush(rt)?;
        }
        let n = match input.advance(source)? {
            Came::Part => continue,
            Came::Line(n) => n,
            Came::End => return Ok(()),
        };
        out.make_room(rt)?;
        if let Err(complaint) = take(&mut player, input.line(n), out) {
            out.flush(rt)?;
            return complaints::write(rt, input.lines, complaint);
        }
    }
    Ok(())
}

fn main(rt: HostRuntime) -> io::Result<()> {
    replay(&rt, &mut rt.stdin(), &mut Input::new(), &mut Out::new())
}

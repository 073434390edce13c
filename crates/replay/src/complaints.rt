// What is said of a malformed line.
use script::call::Complaint;
use std::io;

fn message(complaint: Complaint) -> &'static str {
    match complaint {
        Complaint::NotACall => "not a call",
        Complaint::MissingOrExtraWord => "missing or extra word",
        Complaint::NotANumber => "not a number from 0 to 4294967295",
        Complaint::NumberTooLarge => "a number is too large",
        Complaint::NotHex => "not 1 to 256 bytes in lower-case hex",
        Complaint::NotImageHex => "not 1 to 2048 bytes in lower-case hex",
        Complaint::UnknownName => "unknown name",
        Complaint::NoDrive => "the first call is not an accepted F",
        Complaint::LineTooLong => "the line is too long",
    }
}

// A line on standard error.
pub fn write(rt: &impl Eprint, line: u64, complaint: Complaint) -> io::Result<()> {
    let said = message(complaint);
    eprintln!(rt; "line {line}: {said}")
}

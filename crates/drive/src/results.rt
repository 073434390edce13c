// What the methods hand back.
use crate::Drive;
pub use operations::results::{Ending, Refusal};

// 01: "Every refusal hands back its number, the drive as it came".
#[derive(Clone, Copy)]
pub struct Refused {
    pub refusal: Refusal,
    pub drive: Drive,
}

// After a string: the next drive, and how many bytes at the front of the buffer answer it, 0 for
// silence. The drive stands first, so that it lies at the same place of a result as a refused one.
#[derive(Clone, Copy)]
pub struct Told {
    pub drive: Drive,
    pub length: usize,
}

// After a wait: how it ended, and the next drive.
#[derive(Clone, Copy)]
pub struct Waited {
    pub ending: Ending,
    pub drive: Drive,
}

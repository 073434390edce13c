// A console at work.
ghost use Rattle.std.specs.Prelude.{◌≡◌, ◌≤◌, length};

use drive::Drive;

#[derive(Drop)]
pub struct Server {
    pub drive: Drive,
    // How many bytes are held of the string under way. They stand at the front of its place, which
    // has one more for its 13.
    pub held: usize,
    pub string: [u8; 65],
    // Where answers are put.
    pub out: [u8; 65536],
    ghost kept: { held ≤ 64 },
    ghost place: { length string ≡ 65 },
    ghost room: { length out ≡ 65536 },
}

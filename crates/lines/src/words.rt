// The words of a line of text, parted by one space.
ghost use Rattle.std.specs.Prelude.{◌≡◌, ◌+◌, drop};
ghost use Rattle.scan.specs.Bytes.{index_of};

const SPACE: u8 = 32;

// How long the first word of a line is.
#[tactic(auto, unfolding(scan::specs::Bytes::slice))]
pub fn word_length(line: &[u8]) -> usize
    ensures { result ≡ index_of 32 line.now }
{
    scan::find(line, 0, line.len(), SPACE)
}

// What stands behind a place and its byte.
pub fn behind(line: &[u8], at: usize) -> &[u8]
    ensures { result.now ≡ drop (at + 1) line.now }
{
    if at < line.len() {
        return &line[at + 1..];
    }
    &line[line.len()..]
}

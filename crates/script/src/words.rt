// Text in parts. The words of a line are parted by one space, so that two spaces have an empty word
// between them.
ghost use Rattle.std.specs.Prelude.{◌≡◌, ◌≤◌, [], length, drop, slice_index_or};
ghost use Rattle.script.specs.Words.{place_from, parts_of, part_at, words_of, place_of};

// The first place from `from` on where a byte stands, or the end.
pub fn find(s: &[u8], from: usize, byte: u8) -> usize
    ensures value { result ≡ place_from byte from s.now }
    ensures upper_bound { result ≤ length s.now }
{
    if s.len() <= from {
        return s.len();
    }
    scan::find(s, from, s.len(), byte)
}

// How many parts there are: one more than separators.
pub(crate) fn count(text: &[u8], separator: u8) -> usize
    ensures { result ≡ length (parts_of separator text.now) }
{
    let mut n = 1;
    for byte in text {
        if *byte == separator {
            n += 1;
        }
    }
    n
}

// Where a part begins; past the end where there is none.
fn start(text: &[u8], k: usize, separator: u8) -> usize
    ensures { part_at separator k text.now ≡
        part_at separator 0 (drop result text.now) }
{
    let mut at = 0;
    for _i in 0..k {
        at = find(text, at, separator) + 1;
    }
    at
}

// A part, counted from 0; nothing where there is none.
pub fn part(text: &[u8], k: usize, separator: u8) -> &[u8]
    ensures { result.now ≡ part_at separator k text.now }
{
    let from = start(text, k, separator);
    let to = find(text, from, separator);
    if to < from {
        return &text[..0];
    }
    &text[from..to]
}

// A line, and how many words it has.
#[derive(Clone, Copy)]
pub(crate) struct Line<'a> {
    pub text: &'a [u8],
    pub count: usize,
    ghost counted: { count ≡ length (words_of text.now) },
}

impl<'a> Line<'a> {
    pub(crate) fn new(text: &'a [u8]) -> Self
        ensures { result.text.now ≡ text.now }
    {
        Line {
            text,
            count: count(text, b' '),
        }
    }

    // A word, counted from 0; nothing where there is none.
    #[tactic(auto, unfolding(crate::specs::Words::part_at))]
    pub(crate) fn word(self, k: usize) -> &'a [u8]
        ensures { result.now ≡ slice_index_or (words_of self.entry.text.now) k [] }
    {
        part(self.text, k, b' ')
    }
}

// The place of a name in a list of words, or how many there are.
pub(crate) fn place(name: &[u8], list: &[u8]) -> usize
    ensures { result ≡ place_of name.now (words_of list.now) }
{
    let n = count(list, b' ');
    for k in 0..n {
        if check::same(part(list, k, b' '), name) {
            return k;
        }
    }
    n
}

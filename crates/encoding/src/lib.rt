// The words of a list of calls, as bytes: which word stands at the front, how many bytes it takes,
// how many bytes can be seen of it; and whether a whole list is well formed and has room.
#![tactic(auto)]

ghost use Rattle.std.specs.Prelude.{◌≡◌};
ghost use Rattle.encoding.specs.Words.{head_of, size_of, room_of};
ghost use Rattle.encoding.specs.Refusing.{number_of, refusal_of};

pub mod reading;

use reading::{byte_at, number_at, pair_at};

// What stands at the front of a list. The text of a string follows its four bytes.
#[derive(Clone, Copy)]
pub enum Head {
    // A byte that begins no word.
    NoWord,
    Text { room: u8, length: u16 },
    Inputs(u16),
    Millisecond,
    Step,
    AtSpeed,
    Halted,
    Wait(u32),
    Order,
    Travel(u32),
}

// Why a list is refused whole.
#[derive(Clone, Copy)]
pub enum Refusal {
    // 2: the drive is unsound.
    Unsound,
    // 100: a byte begins no word.
    NoWord,
    // 101: the list ends within a word.
    CutShort,
    // 102: the buffer has fewer bytes than can be seen of the list.
    ShortBuffer,
}

impl Refusal {
    // Its number. Those of lists begin at 100.
    #[tactic(auto, unfolding(crate::specs::Refusing::number_of))]
    pub fn number(self) -> u8
        ensures { result ≡ number_of self }
    {
        match self {
            Refusal::Unsound => 2,
            Refusal::NoWord => 100,
            Refusal::CutShort => 101,
            Refusal::ShortBuffer => 102,
        }
    }
}

impl Head {
    // How many bytes the word takes, none where there is no word.
    #[tactic(auto, unfolding(crate::specs::Words::size_of))]
    pub fn size(self) -> usize
        ensures { result ≡ size_of self }
    {
        match self {
            Head::NoWord => 0,
            Head::Text { room: _, length } => 4 + length as usize,
            Head::Inputs(_) => 3,
            Head::Millisecond => 1,
            Head::Step => 1,
            Head::AtSpeed => 1,
            Head::Halted => 1,
            Head::Wait(_) => 5,
            Head::Order => 1,
            Head::Travel(_) => 5,
        }
    }

    // How many bytes can be seen of it.
    #[tactic(auto, unfolding(crate::specs::Words::room_of))]
    pub fn room(self) -> usize
        ensures { result ≡ room_of self }
    {
        match self {
            Head::NoWord => 0,
            Head::Text { room: _, length: _ } => 66,
            Head::Inputs(_) => 1,
            Head::Millisecond => 1,
            Head::Step => 1,
            Head::AtSpeed => 1,
            Head::Halted => 1,
            Head::Wait(_) => 6,
            Head::Order => 17,
            Head::Travel(_) => 5,
        }
    }
}

// The word at the front of a list. Bytes that are missing count as 0: the list then ends within the
// word, which `check` refuses.
#[tactic(auto, unfolding(crate::specs::Words::head_of, crate::specs::Words::head_with, laws::specs::Tests::choose))]
pub fn head_of(list: &[u8]) -> Head
    ensures { result ≡ head_of list.now }
{
    match byte_at(list, 0) {
        b'S' => Head::Text {
            room: byte_at(list, 1),
            length: pair_at(list, 2),
        },
        b'I' => Head::Inputs(pair_at(list, 1)),
        b'M' => Head::Millisecond,
        b'P' => Head::Step,
        b'A' => Head::AtSpeed,
        b'H' => Head::Halted,
        b'W' => Head::Wait(number_at(list, 1)),
        b'B' => Head::Order,
        b'G' => Head::Travel(number_at(list, 1)),
        _ => Head::NoWord,
    }
}

// Whether a list can be carried out with a buffer of so many bytes: the first word at which
// something is wrong decides.
pub fn check(list: &[u8], space: usize) -> Result<(), Refusal>
    ensures { result ≡ refusal_of space list.now }
{
    let mut at = 0;
    let mut left = space;
    // Each word says itself where the next one begins, so no range counts them.
    while at < list.len() {
        let head = head_of(&list[at..]);
        let size = head.size();
        if size == 0 {
            return Err(Refusal::NoWord);
        }
        if list.len() - at < size {
            return Err(Refusal::CutShort);
        }
        let room = head.room();
        if left < room {
            return Err(Refusal::ShortBuffer);
        }
        left -= room;
        at += size;
    }
    Ok(())
}

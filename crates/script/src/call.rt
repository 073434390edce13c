// A call of a script, and what is wrong with a line that is none.

#[derive(Clone, Copy, PartialEq, Eq)]
pub enum Complaint {
    NotACall,
    MissingOrExtraWord,
    NotANumber,
    NumberTooLarge,
    NotHex,
    NotImageHex,
    UnknownName,
    // The first call is not an accepted F.
    NoDrive,
    LineTooLong,
}

// What may happen to a drive from outside.
#[derive(Clone, Copy)]
pub enum Event {
    Inputs(u32),
    Millisecond,
    Step,
    AtSpeed,
    Halted,
}

// What leaves the drive as it is.
#[derive(Clone, Copy)]
pub enum Look {
    Order,
    Rounding(u32),
    Reading,
    Totals(u32),
    Used,
    Record,
    Image,
}

// A raw write.
#[derive(Clone, Copy)]
pub enum Write {
    // By the field's place in the list of names.
    Field { place: usize, value: u64 },
    Output { place: usize, value: u32 },
    // Code, parameters and next are the numbers.
    Cell { place: usize },
}

#[derive(Clone, Copy)]
pub enum Call {
    Comment,
    Fresh(u32),
    // The bytes stand at the front of the text: memory is fixed, and a call is copied.
    Tell {
        length: usize,
        size: usize,
        fill: u8,
    },
    Happens(Event),
    Wait(u32),
    Looks(Look),
    Writes(Write),
    // An image of the drive, with its buffer.
    Save {
        size: usize,
        fill: u8,
    },
    // The image stands at the front of the text.
    Load {
        length: usize,
    },
}

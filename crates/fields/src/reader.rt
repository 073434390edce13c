// 01: "the line reader takes one field after another from the string".
ghost use Rattle.std.specs.Prelude.{◌≡◌, ◌+◌, ◌≤◌, length, drop};
ghost use Rattle.fields.specs.Reader.{field_length, field_at};

// A string and a place in it.
#[derive(Clone, Copy)]
pub struct Reader<'a> {
    pub src: &'a [u8],
    pub at: usize,
}

// Where a field lies.
#[derive(Clone, Copy)]
pub struct Extent {
    pub start: usize,
    pub end: usize,
}

impl<'a> Reader<'a> {
    // A reader of a string, at a place.
    pub fn new(src: &'a [u8], at: usize) -> Reader<'a>
        ensures { (result.src ≡ src.entry) × (result.at ≡ at) }
    {
        Reader { src, at }
    }

    // The next field: a comma at the place, then the field.
    #[tactic(auto, unfolding(crate::specs::Reader::field_at, laws::specs::Tests::choose))]
    pub fn field(self) -> Option<Extent>
        ensures { result ≡ field_at self.entry.src.now self.entry.at }
    {
        if self.at < self.src.len() {
            if self.src[self.at] == b',' {
                let start = self.at + 1;
                return Some(Extent {
                    start,
                    end: field_end(self.src, start),
                });
            }
        }
        None
    }

    // The same string, at another place: after a field, at its end.
    pub fn moved(self, at: usize) -> Reader<'a>
        ensures { (result.src ≡ self.entry.src) × (result.at ≡ at) }
    {
        Reader { src: self.src, at }
    }
}

// The place of the next comma, or the end.
fn field_end(s: &[u8], from: usize) -> usize
    requires { from ≤ length s.now }
    ensures { result ≡ from + field_length (drop from s.now) }
{
    for i in from..s.len() {
        if s[i] == b',' {
            return i;
        }
    }
    s.len()
}

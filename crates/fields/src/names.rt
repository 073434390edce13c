// The lists of two-letter names that 01 gives with its fields and presets.
ghost use Rattle.std.specs.Prelude.{◌≡◌, ◌<◌, length, get_or};
ghost use Rattle.fields.specs.Names.{list_of, place_from};

#[derive(Clone, Copy)]
pub enum Names {
    // What 58 and SO set.
    Settable,
    // What QO shows.
    Outputs,
    // What 63 tests.
    Conditions,
    // What QI shows.
    Inputs,
    // What WS sets and QS shows.
    Presets,
    // The values of preset RS.
    Resolutions,
}

// A name as one number: 256 times its first letter, and its second.
static OUTPUTS: [u16; 16] = [
    0x4f30, 0x4f31, 0x4f32, 0x4f33, 0x4643, 0x4630, 0x4631, 0x4632, 0x4633, 0x4634, 0x4635, 0x4636,
    0x4637, 0x4355, 0x4253, 0x4641,
];

static CONDITIONS: [u16; 16] = [
    0x4930, 0x4931, 0x4932, 0x5058, 0x5330, 0x5331, 0x5332, 0x5333, 0x4630, 0x4631, 0x4632, 0x4633,
    0x4634, 0x4635, 0x4636, 0x4637,
];

static INPUTS: [u16; 11] = [
    0x4930, 0x4931, 0x4932, 0x5058, 0x5330, 0x5331, 0x5332, 0x5333, 0x5354, 0x4553, 0x4545,
];

static PRESETS: [u16; 5] = [0x4144, 0x494e, 0x5253, 0x4553, 0x434d];

static RESOLUTIONS: [u16; 8] = [
    0x4430, 0x4431, 0x4432, 0x4433, 0x4230, 0x4231, 0x4232, 0x4233,
];

// The names of a list. What 58 and SO set are the first of what QO shows.
#[tactic(auto, unfolding(crate::specs::Names::list_of, crate::specs::Names::listed, crate::specs::Names::pair_of, laws::specs::Text::bytes))]
fn list(names: Names) -> &'static [u16]
    ensures { result.now ≡ list_of names }
{
    match names {
        Names::Settable => &OUTPUTS[..13],
        Names::Outputs => &OUTPUTS,
        Names::Conditions => &CONDITIONS,
        Names::Inputs => &INPUTS,
        Names::Presets => &PRESETS,
        Names::Resolutions => &RESOLUTIONS,
    }
}

// How many names a list has.
pub fn count(names: Names) -> usize
    ensures { result ≡ length (list_of names) }
{
    list(names).len()
}

// The name at a place of a list.
pub fn name(names: Names, i: usize) -> u16
    requires { i < length (list_of names) }
    ensures { result ≡ get_or (list_of names) i 0 }
{
    list(names)[i]
}

// The place of a name in a list.
pub fn find(names: Names, x: u16) -> Option<u32>
    ensures { result ≡ place_from (list_of names) 0 x }
{
    for (place, name) in list(names).iter().enumerate() {
        if *name == x {
            return Some(place as u32);
        }
    }
    None
}

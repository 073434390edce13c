// The presets as the first row of an image: AD, IN, RS, ES, CM.
ghost use Rattle.std.specs.Prelude.{◌≡◌};
ghost use Rattle.machine.specs.Images.{preset_numbers, presets_from};

use machine::Presets;
use machine::commands::resolution_at;
use replies::values::preset_value;
use units::DriveAddress;

// How many there are; none has a sign.
pub const COUNT: usize = 5;

// A place past every row, as in `format::signed_place`: each place is compared with it, so that an
// Option would only add a case.
pub const NO_SIGN: usize = 6;

#[tactic(auto, unfolding(machine::specs::Images::preset_numbers))]
pub fn preset_numbers(presets: Presets) -> [u32; 6]
    ensures { result ≡ preset_numbers presets }
{
    [
        preset_value(0, presets),
        preset_value(1, presets),
        preset_value(2, presets),
        preset_value(3, presets),
        preset_value(4, presets),
        0,
    ]
}

#[tactic(auto, unfolding(machine::specs::Images::presets_from))]
pub fn presets_from(values: [u32; 6]) -> Presets
    ensures { result ≡ presets_from values }
{
    Presets {
        address: DriveAddress((values[0] % 256) as u8),
        current: (values[1] % 256) as u8,
        resolution: resolution_at(values[2]),
        interlock: values[3] == 1,
        absolute: values[4] == 1,
    }
}

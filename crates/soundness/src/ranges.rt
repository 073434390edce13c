// The tests of single parts of the state that need nothing beside them.
ghost use Rattle.std.specs.Prelude.{◌≡◌};
ghost use Rattle.machine.specs.Soundness.{is_cell, presets_sound, cam_sound, fault_sound};

use machine::{Cam, Fault, Presets};
use units::CellAddress;

#[tactic(auto, unfolding(machine::specs::Soundness::is_cell, laws::specs::Tests::both))]
pub fn is_cell(address: CellAddress) -> bool
    ensures { result ≡ is_cell address }
{
    (CellAddress::FIRST..=CellAddress::LAST).contains(&address.0)
}

#[tactic(auto, unfolding(machine::specs::Soundness::presets_sound, laws::specs::Tests::both))]
pub fn presets_sound(presets: Presets) -> bool
    ensures { result ≡ presets_sound presets }
{
    (presets.address.0 <= 47) & (presets.current <= 3)
}

// An unset cam has position 0.
#[tactic(auto, unfolding(machine::specs::Soundness::cam_sound, machine::specs::Soundness::position_sound, laws::specs::Tests::both, laws::specs::Tests::either))]
pub fn cam_sound(cam: Cam) -> bool
    ensures { result ≡ cam_sound cam }
{
    cam.set | (cam.position.0 == 0)
}

// No error, or 50 to 52 at a cell.
#[tactic(auto, unfolding(machine::specs::Soundness::fault_sound, laws::specs::Tests::both, laws::specs::Tests::choose))]
pub fn fault_sound(fault: Fault) -> bool
    ensures { result ≡ fault_sound fault }
{
    match fault.code {
        0 => fault.cell.0 == 0,
        50..=52 => is_cell(fault.cell),
        _ => false,
    }
}

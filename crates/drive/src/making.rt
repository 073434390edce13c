// A fresh drive.
ghost use Rattle.std.specs.Prelude.{◌≡◌};
ghost use Rattle.machine.specs.Record.{fresh_presets, fresh_state, fresh as fresh_of};
ghost use Rattle.machine.specs.Operations.{made};
ghost use Rattle.drive.specs.Results.{made_as, machine_of};

use crate::Drive;
use crate::results::{Refusal, Refused};
use instruction::{Cell, Instruction};
use machine::{Cam, Fault, Machine, Presets, Resolution, State, Suspended};
use progress::at_rest;
use units::{CellAddress, DriveAddress, Position};

fn fresh_presets(address: DriveAddress) -> Presets
    ensures { result ≡ fresh_presets address }
{
    Presets {
        address,
        current: 1,
        resolution: Resolution::D2,
        interlock: false,
        absolute: false,
    }
}

fn fresh_state(address: DriveAddress) -> State
    ensures { result ≡ fresh_state address }
{
    State {
        presets: fresh_presets(address),
        position: Position(0),
        inputs: [false; 11],
        outputs: [false; 14],
        cam: Cam::UNSET,
        fault: Fault::NONE,
        suspended: Suspended::EMPTY,
        running: at_rest(),
    }
}

fn fresh_machine(address: DriveAddress) -> Machine
    ensures { result ≡ fresh_of address }
{
    let state = fresh_state(address);
    let cell = Cell {
        instruction: Instruction::Null,
        next: CellAddress(0),
    };
    Machine {
        state,
        cells: [cell; 131],
    }
}

impl Drive {
    // A fresh drive. An address above 47 is refused; the drive beside that refusal has the address,
    // so it is unsound, and every operation refuses it.
    #[tactic(auto, unfolding(crate::specs::Results::made_as, crate::specs::Results::machine_of, crate::specs::Results::refused_with, machine::specs::Operations::made, operations::specs::Results::number_of, laws::specs::Tests::choose))]
    pub fn fresh(address: DriveAddress) -> Result<Drive, Refused>
        ensures result_value { made_as result ≡ made address.0 }
        ensures drive { machine_of result ≡ fresh_of address }
    {
        let drive = Drive {
            machine: fresh_machine(address),
        };
        if 47 < address.0 {
            return Err(drive.refused(Refusal::AddressAbove47));
        }
        Ok(drive)
    }
}

// Where an instruction leads beside its next: 02, Slip 5.
ghost use Rattle.std.specs.Prelude.{◌≡◌};
ghost use Rattle.instruction.specs.Ways.{jump_of};

use crate::Instruction;
use units::CellAddress;

impl Instruction {
    // EEE of a 62 or a 63; of any other its next, which is a cell's only way then.
    #[tactic(auto, unfolding(crate::specs::Ways::jump_of))]
    pub fn jump(self, next: CellAddress) -> CellAddress
        ensures { result ≡ jump_of self next }
    {
        match self {
            Instruction::ClosingLoop { jump } => jump,
            Instruction::ConditionalJump { jump, .. } => jump,
            _ => next,
        }
    }
}

// The code of an instruction, and how many fields it has.
ghost use Rattle.std.specs.Prelude.{◌≡◌, length};
ghost use Rattle.format.specs.Formats.{fields_of};
ghost use Rattle.instruction.specs.Codes.{code_of};

use crate::Instruction;

impl Instruction {
    #[tactic(auto, unfolding(crate::specs::Codes::code_of))]
    pub fn code(self) -> u8
        ensures { result ≡ code_of self }
    {
        match self {
            Instruction::Null => 0,
            Instruction::IndexedRamp { .. } => 1,
            Instruction::IndexedRampFine { .. } => 31,
            Instruction::FreeRamp { .. } => 2,
            Instruction::FreeRampFine { .. } => 32,
            Instruction::Indexed { .. } => 11,
            Instruction::IndexedFine { .. } => 21,
            Instruction::Free { .. } => 12,
            Instruction::FreeFine { .. } => 22,
            Instruction::ZeroSearch { .. } => 3,
            Instruction::DelayedStop { .. } => 5,
            Instruction::CamSetting { .. } => 57,
            Instruction::OutputSetting { .. } => 58,
            Instruction::CounterReset => 60,
            Instruction::OpeningLoop { .. } => 61,
            Instruction::ClosingLoop { .. } => 62,
            Instruction::ConditionalJump { .. } => 63,
            Instruction::TimeDelay { .. } => 65,
            Instruction::Recovery => 69,
            Instruction::CurrentSetting { .. } => 70,
        }
    }

    // How many fields the row of its code has. Asked of an instruction, so that a memory is written
    // without a look at its code.
    #[tactic(auto, unfolding(crate::specs::Codes::code_of, format::specs::Formats::fields_of, format::specs::Formats::fields_in, laws::specs::Tests::choose))]
    pub fn field_count(self) -> usize
        ensures { result ≡ length (fields_of (code_of self)) }
    {
        match self {
            Instruction::Recovery => 0,
            Instruction::Null | Instruction::CounterReset => 1,
            Instruction::OpeningLoop { .. }
            | Instruction::ClosingLoop { .. }
            | Instruction::TimeDelay { .. }
            | Instruction::CurrentSetting { .. } => 2,
            Instruction::CamSetting { .. } | Instruction::OutputSetting { .. } => 3,
            Instruction::Indexed { .. }
            | Instruction::IndexedFine { .. }
            | Instruction::Free { .. }
            | Instruction::FreeFine { .. }
            | Instruction::ConditionalJump { .. } => 4,
            Instruction::IndexedRamp { .. }
            | Instruction::IndexedRampFine { .. }
            | Instruction::FreeRamp { .. }
            | Instruction::FreeRampFine { .. }
            | Instruction::ZeroSearch { .. } => 5,
            Instruction::DelayedStop { .. } => 6,
        }
    }
}

// What a cell may hold. The tests are joined and never left early, so that a whole memory is
// checked with few branches.
ghost use Rattle.std.specs.Prelude.{◌≡◌, ℕ, eqb};
ghost use Rattle.laws.specs.Tests.{both, either};
ghost use Rattle.units.specs.Bits.{bits_of};
ghost use Rattle.frequency.specs.Places.{hertz_of};
ghost use Rattle.fields.specs.Kinds.{valid};
ghost use Rattle.fields.specs.declared.kinds.Kind.TheVariants.{Fixed, Next};
ghost use Rattle.format.specs.Formats.{hertz, ramp, count, position};
ghost use Rattle.instruction.specs.Soundness.{cell_sound, steps_within};

use crate::{Cell, Instruction};
use frequency::Frequency;
use units::{CellAddress, LOOP_LIMIT, Milliseconds, Position, Steps};

// A field from low to high, of any width.
#[tactic(auto, using(laws::proofs::Joins::and_both), unfolding(fields::specs::Kinds::valid))]
fn between(v: u8, low: u8, high: u8) -> bool
    ensures { (w : ℕ) → result ≡ valid (Fixed w low high) v }
{
    (low <= v) & (v <= high)
}

// 000, or a cell.
fn is_next(v: u8) -> bool
    ensures { result ≡ valid Next v }
{
    (v == 0) | between(v, CellAddress::FIRST, CellAddress::LAST)
}

// A frequency and a ramp code.
#[tactic(auto, using(laws::proofs::Joins::and_both))]
fn ramped(frequency: u8, low: u8, high: u8, code: u8) -> bool
    ensures { (w : ℕ) → result ≡ both (valid (Fixed w low high) frequency) (valid ramp code) }
{
    between(frequency, low, high) & between(code, 10, 42)
}

fn in_table(f: Frequency) -> bool
    ensures { result ≡ valid hertz (hertz_of f) }
{
    f.0 < Frequency::COUNT
}

fn within(steps: Steps) -> bool
    ensures { result ≡ steps_within steps }
{
    (-Steps::LIMIT <= steps.0) & (steps.0 <= Steps::LIMIT)
}

// The steps of a 05, which has its direction apart.
fn counted(steps: Steps) -> bool
    ensures { result ≡ both (valid count (bits_of steps)) (steps_within steps) }
{
    (0 <= steps.0) & (steps.0 <= Steps::LIMIT)
}

// An unset cam has position 0.
fn stored(set: bool, p: Position) -> bool
    ensures { result ≡ both (valid position p.0) (either set (eqb p.0 0)) }
{
    set | (p.0 == 0)
}

impl Cell {
    // Whether each field lies in its range, in its stored form.
    pub fn sound(self) -> bool
        ensures { result ≡ cell_sound self }
    {
        let next = self.next.0;
        let linked = is_next(next);
        match self.instruction {
            Instruction::IndexedRamp {
                frequency,
                ramp,
                steps,
                ..
            } => ramped(frequency, 3, 24, ramp) & linked & within(steps),
            Instruction::IndexedRampFine {
                frequency,
                ramp,
                steps,
                ..
            } => ramped(frequency, 30, 240, ramp) & linked & within(steps),
            Instruction::FreeRamp {
                frequency,
                ramp,
                ..
            } => ramped(frequency, 3, 24, ramp) & linked,
            Instruction::FreeRampFine {
                frequency,
                ramp,
                ..
            } => ramped(frequency, 30, 240, ramp) & linked,
            Instruction::Indexed {
                frequency,
                steps,
                ..
            } => between(frequency, 2, 30) & linked & within(steps),
            Instruction::IndexedFine {
                frequency,
                steps,
                ..
            } => in_table(frequency) & linked & within(steps),
            Instruction::Free { frequency, .. } => between(frequency, 2, 30) & linked,
            Instruction::FreeFine { frequency, .. } => in_table(frequency) & linked,
            Instruction::ZeroSearch {
                frequency,
                ramp,
                slow,
                ..
            } => ramped(frequency, 3, 24, ramp) & between(slow, 2, 30) & linked,
            Instruction::DelayedStop {
                frequency,
                ramp,
                steps,
                ..
            } => ramped(frequency, 3, 24, ramp) & linked & counted(steps),
            Instruction::CamSetting { set, position } => linked & stored(set, position),
            Instruction::OutputSetting { output, .. } => (output.0 < 13) & linked,
            Instruction::OpeningLoop { count } => (1 <= count) & (count <= LOOP_LIMIT) & linked,
            Instruction::ClosingLoop { jump } => between(
                jump.0,
                CellAddress::FIRST,
                CellAddress::LAST,
            ) & linked,
            Instruction::ConditionalJump {
                condition,
                jump,
                ..
            } => (condition.0 < 16)
                & between(jump.0, CellAddress::FIRST, CellAddress::LAST)
                & linked,
            Instruction::TimeDelay { delay } => (delay.0 <= Milliseconds::DELAY_LIMIT) & linked,
            Instruction::CurrentSetting { .. } | Instruction::CounterReset | Instruction::Null => {
                linked
            }
            Instruction::Recovery => next == 0,
        }
    }
}

// What remains of a delay or a run, as an integer and back.
ghost use Rattle.std.specs.Prelude.{◌≡◌};
ghost use Rattle.machine.specs.Soundness.{is_cell};
ghost use Rattle.raw.specs.Counts.{integer_of, counts_of, in_delay, holds_delay};
ghost use Rattle.raw.specs.Counts.{count_of, counted};

use crate::integers;
use instruction::Cell;
use machine::{Phase, Remaining, State};
use units::{CellAddress, Milliseconds, Steps};

// Both remaining counts of a state as integers, which get their units when it is put together.
#[derive(Clone, Copy)]
pub struct Counts {
    pub suspended: u64,
    pub running: u64,
}

#[tactic(auto, unfolding(crate::specs::Counts::integer_of))]
fn integer(remaining: Remaining) -> u64
    ensures { result ≡ integer_of remaining }
{
    match remaining {
        Remaining::Nothing => 0,
        Remaining::Counted(n) => integers::extended(n.bits()),
        Remaining::Timed(n) => n.0 as u64,
    }
}

#[tactic(auto, unfolding(crate::specs::Counts::counts_of))]
pub fn counts_of(state: State) -> Counts
    ensures { result ≡ counts_of state }
{
    Counts {
        suspended: integer(state.suspended.remaining),
        running: integer(state.running.remaining),
    }
}

fn in_delay(phase: Phase) -> bool
    ensures { result ≡ in_delay phase }
{
    matches!(phase, Phase::Delay)
}

#[tactic(auto, unfolding(machine::specs::Soundness::is_cell, laws::specs::Tests::both))]
fn is_cell(address: CellAddress) -> bool
    ensures { result ≡ is_cell address }
{
    (CellAddress::FIRST..=CellAddress::LAST).contains(&address.0)
}

// Whether there is a cell at the address and it holds a 65.
#[tactic(auto, unfolding(crate::specs::Counts::holds_delay, machine::specs::Soundness::is_delay, machine::specs::Soundness::is_cell, machine::specs::Record::cell_at, laws::specs::Tests::both))]
pub fn holds_delay(cells: [Cell; 131], address: CellAddress) -> bool
    ensures { result ≡ holds_delay cells address }
{
    if is_cell(address) {
        return cells[address.place()].instruction.code() == 65;
    }
    false
}

// The count of a number: milliseconds where it is timed, else steps; nothing where a record cannot
// hold it.
#[tactic(auto, unfolding(crate::specs::Counts::count_of, laws::specs::Tests::choose))]
fn count_of(v: u64, timed: bool) -> Option<Remaining>
    ensures { result ≡ count_of timed v }
{
    if v == 0 {
        return Some(Remaining::Nothing);
    }
    let bits = integers::low(v);
    if timed {
        return (v < 0x1_0000_0000).then_some(Remaining::Timed(Milliseconds(bits)));
    }
    integers::is_signed(v).then_some(Remaining::Counted(Steps::from_bits(bits)))
}

// The state with both counts in their units, where it can hold them. What remains of the program
// under way is one of milliseconds where the phase is delay.
#[tactic(auto, unfolding(crate::specs::Counts::counted, crate::specs::Counts::with_both))]
pub fn in_units(mut state: State, counts: Counts, timed: bool) -> Option<State>
    ensures { result ≡ counted timed state counts }
{
    let from = count_of(counts.suspended, timed)?;
    let left = count_of(counts.running, in_delay(state.running.phase))?;
    state.suspended.remaining = from;
    state.running.remaining = left;
    Some(state)
}

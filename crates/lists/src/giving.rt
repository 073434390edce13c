// The words of a list that need no more of a drive than its state and the cells that it is at.
ghost use Rattle.std.specs.Prelude.{◌≡◌, true, List, [], ◌∷◌, ◌+◌, ◌≤◌, length};
ghost use Rattle.instruction.specs.Soundness.{cell_sound};
ghost use Rattle.instruction.specs.declared.Cell.{Cell as CellOf};
ghost use Rattle.laws.specs.Writing.{Put};
ghost use Rattle.machine.specs.Record.{cell_at};
ghost use Rattle.machine.specs.Milliseconds.{present};
ghost use Rattle.machine.specs.Calls.{shown_at};
ghost use Rattle.machine.specs.Orders.{order_at};
ghost use Rattle.machine.specs.Invariant.{Kept};
ghost use Rattle.encoding.specs.Words.{room_of};
ghost use Rattle.seen.specs.Bytes.{shown_bytes};
ghost use Rattle.lists.specs.Listing.{small_word};
ghost use Rattle.lists.specs.Listing.Word.{Travel as travel_of};
ghost use Rattle.lists.specs.Giving.{Carries, is_whole, refusal_in, state_after};

use encoding::Head;
use execution::milliseconds::millisecond;
use instruction::Cell;
use machine::State;
use motion::orders::board_order;
use operations::events;
use operations::results::Refusal;
use seen::numbers::{put_byte, put_number};
use seen::orders::put_shown;
use travel::travel;

// An event: its refusal.
fn tell(acted: Result<State, Refusal>, state: &mut State, buffer: &mut [u8], at: usize) -> usize
    requires { at + 1 ≤ length buffer.old }
    ensures state_value { state.new ≡ state_after state.old acted }
    ensures bytes { Put buffer.old buffer.new (refusal_in acted ∷ []) at result }
{
    match acted {
        Ok(next) => {
            *state = next;
            put_byte(buffer, at, 0)
        }
        Err(refusal) => put_byte(buffer, at, refusal.number()),
    }
}

// The order to the board and the outputs.
fn tell_order(state: &State, cell: Cell, buffer: &mut [u8], at: usize) -> usize
    requires cell_value { cell_sound cell ≡ true }
    requires at_in_bounds { at + 17 ≤ length buffer.old }
    ensures { Put buffer.old buffer.new
        (0 ∷ shown_bytes (record { order = order_at state.now cell; outputs = state.now.outputs })) at result }
{
    let begun = put_byte(buffer, at, 0);
    put_shown(buffer, begun, board_order(*state, cell), state.outputs)
}

// Steps: how many were given.
fn tell_travel(state: &mut State, cell: Cell, limit: u32, buffer: &mut [u8], at: usize) -> usize
    requires { at + 5 ≤ length buffer.old }
    ensures carries { (cells : List CellOf) → Kept (record { state = state.old; cells = cells }) →
        present cells state.old ≡ cell →
        Carries (travel_of limit) (record { state = state.old; cells = cells })
        (record { state = state.new; cells = cells }) buffer.old buffer.new at result }
    ensures room { result ≡ at + 5 }
{
    let travelled = travel(*state, cell, limit);
    *state = travelled.state;
    let begun = put_byte(buffer, at, 0);
    put_number(buffer, begun, travelled.given)
}

// Whether a word needs the whole drive.
#[tactic(auto, unfolding(crate::specs::Giving::is_whole))]
pub fn is_whole(head: Head) -> bool
    ensures { result ≡ is_whole head }
{
    matches!(head, Head::Text { .. } | Head::Wait(_))
}

// A word, given the present cell and the interrupted record's.
#[tactic(auto, unfolding(encoding::specs::Words::room_of))]
pub fn give(
    head: Head,
    state: &mut State,
    cell: Cell,
    held: Cell,
    buffer: &mut [u8],
    at: usize,
) -> usize
    requires cell_value { (cell_sound cell ≡ true) × (cell_sound held ≡ true) }
    requires head_in_bounds { at + room_of head ≤ length buffer.old }
    ensures carries { (cells : List CellOf) → Kept (record { state = state.old; cells = cells }) →
        present cells state.old ≡ cell → cell_at cells state.old.suspended.cell ≡ held →
        Carries (small_word head) (record { state = state.old; cells = cells })
        (record { state = state.new; cells = cells }) buffer.old buffer.new at result }
    ensures room { result ≤ at + room_of head }
{
    match head {
        Head::NoWord => at,
        Head::Text { room: _, length: _ } => at,
        Head::Inputs(word) => tell(events::inputs(word, *state, cell), state, buffer, at),
        Head::Millisecond => tell(Ok(millisecond(*state, cell, held)), state, buffer, at),
        Head::Step => tell(events::step(*state, cell), state, buffer, at),
        Head::AtSpeed => tell(events::at_speed(*state, cell), state, buffer, at),
        Head::Halted => tell(events::halted(*state, cell), state, buffer, at),
        Head::Wait(_) => at,
        Head::Order => tell_order(state, cell, buffer, at),
        Head::Travel(limit) => tell_travel(state, cell, limit, buffer, at),
    }
}

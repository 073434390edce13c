// PX, which a zero search goes by.
ghost use Rattle.std.specs.Prelude.{◌≡◌};
ghost use Rattle.machine.specs.Stopping.{px_seen_in};

use instruction::run::{Motion, Profile};
use machine::{Phase, Remaining, State};
use progress::{advanced, in_phase};
use units::CellAddress;

// PX on ends the fast part of a zero search, PX off its way back.
#[tactic(auto, unfolding(laws::specs::Tests::choose, machine::specs::Stopping::px_in_run, machine::specs::Stopping::px_seen_in))]
pub fn px_seen(px: bool, seen: State, profile: Profile, next: CellAddress) -> State
    ensures { result ≡ px_seen_in seen.running.phase px seen profile next }
{
    match (seen.running.phase, profile.motion) {
        (Phase::Run, Motion::SearchRun) if px => {
            in_phase(seen, Phase::Slowing, Remaining::Nothing)
        }
        (Phase::BackOff, _) if !px => advanced(seen, next),
        _ => seen,
    }
}

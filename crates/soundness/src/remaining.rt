// The tests of what remains of a run or a delay.
ghost use Rattle.std.specs.Prelude.{◌≡◌};
ghost use Rattle.machine.specs.Soundness.{steps_remaining, time_remaining, is_steps_along};
ghost use Rattle.machine.specs.Soundness.{is_nothing, is_steps, is_time};

use machine::Remaining;
use units::{Milliseconds, Steps};

// 01: "a rest is within 33,554,428 either way".
#[tactic(auto, unfolding(machine::specs::Soundness::steps_remaining, laws::specs::Tests::both))]
pub fn steps_remaining(n: Steps) -> bool
    ensures { result ≡ steps_remaining n }
{
    (-Steps::REMAINING_LIMIT..=Steps::REMAINING_LIMIT).contains(&n.0) & !n.is_zero()
}

#[tactic(auto, unfolding(machine::specs::Soundness::time_remaining, laws::specs::Tests::both))]
pub fn time_remaining(n: Milliseconds) -> bool
    ensures { result ≡ time_remaining n }
{
    (1..=Milliseconds::REMAINING_LIMIT).contains(&n.0)
}

#[tactic(auto, unfolding(machine::specs::Soundness::is_nothing))]
pub fn is_nothing(remaining: Remaining) -> bool
    ensures { result ≡ is_nothing remaining }
{
    matches!(remaining, Remaining::Nothing)
}

#[tactic(auto, unfolding(machine::specs::Soundness::is_steps))]
pub fn is_steps(remaining: Remaining) -> bool
    ensures { result ≡ is_steps remaining }
{
    matches!(remaining, Remaining::Counted(n) if steps_remaining(n))
}

#[tactic(auto, unfolding(machine::specs::Soundness::is_time))]
pub fn is_time(remaining: Remaining) -> bool
    ensures { result ≡ is_time remaining }
{
    matches!(remaining, Remaining::Timed(n) if time_remaining(n))
}

// Steps along a direction.
#[tactic(auto, unfolding(machine::specs::Soundness::is_steps_along, laws::specs::Tests::both, laws::specs::Tests::same))]
pub fn is_steps_along(backward: bool, remaining: Remaining) -> bool
    ensures { result ≡ is_steps_along backward remaining }
{
    matches!(remaining, Remaining::Counted(n) if steps_remaining(n) & (n.is_negative() == backward))
}

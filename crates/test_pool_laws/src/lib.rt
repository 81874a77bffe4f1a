//! Callers of the laws of one pool: what they prove, and a run of each.
#![tactic(auto)]

ghost use Rattle.test_pool_laws.specs.BoundedRun.{IsBoundedRun};

#[cfg(test)]
mod two_pages;
#[cfg(test)]
mod worlds;

use linear_pools::clean::AnyValue;
use linear_pools::closures::Reset;
use pool_laws::laws;
use pool_world::RunError;
use pool_world::interleave::{Event, Seen, World};

/// Runs events on a world, and shows what was done since it was new: a run of one pool, legal on
/// each of its pages, in which no agent that looks has taken more steps than it may.
///
/// # Errors
///
/// As `World::run`.
pub fn run_bounded<T: Drop, R: Reset<T, AnyValue>>(
    world: &mut World<T, R>,
    events: Vec<Event<T>>,
    seen: &mut Vec<Seen>,
) -> Result<(), RunError>
    ensures { IsBoundedRun (R.leaves world.old.reset) world.new.state }
{
    let result = world.run(events, seen);
    world.bound_own_steps();
    laws::runs::<T, R, AnyValue>();
    laws::part::<T>();
    result
}

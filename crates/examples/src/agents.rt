//! Agents in a world, by the main theorem: whatever they do, their answers are those of one pool.
ghost use Rattle.std.specs.Prelude.{None, IfSome};
ghost use Rattle.pool_world.specs.World.Machine.{opening_world};
ghost use Rattle.examples.specs.Agents.{AnswersAsOnePool};

use pool_parts::clean::AnyValue;
use pool_parts::closures::Reset;
use pool_world::interleave::{Event, Prepared, Seen, World};
use std::alloc::Global;

/// Does the events in a new world, and returns their answers.
///
/// The caller knows of them what it would know of a pool that does one operation after another.
pub fn answers<T: Drop, R: Reset<T, AnyValue>>(
    alloc: Global,
    first: Prepared<T>,
    reset: R,
    events: Vec<Event<T>>,
) -> Option<Vec<Seen>>
    ensures one_pool { IfSome result (λ seen.
        AnswersAsOnePool (R.leaves reset) (opening_world first None) events.items seen.items) }
{
    let Ok(mut world) = World::new(alloc, first, reset) else {
        return None;
    };
    let mut seen = Vec::new(alloc);
    match world.run(events, &mut seen) {
        Ok(()) => Some(seen),
        Err(_) => None,
    }
}

#[cfg(test)]
mod tests;

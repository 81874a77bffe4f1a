ghost use Rattle.std.specs.Prelude.{◌≤◌};

use lockfree_object_pool::FixedObjectPool;
use lockfree_object_pool::clean::AnyValue;
use lockfree_object_pool::closures::{ByDefault, Copied};
use std::alloc::Global;
use std::io;

/// A pool of counters, each of which begins at its type's default. A reset sets it to 0.
type Counters = FixedObjectPool<u32, ByDefault, Copied<u32, AnyValue>>;

/// Creates a pool of so many counters. A refusal becomes an `io::Error`.
fn new_counters(alloc: Global, counters: usize) -> io::Result<Counters>
    requires { 1 ≤ counters }
{
    Ok(FixedObjectPool::new(alloc, ByDefault, Copied::new(0), counters)?)
}

/// Pulls a counter, counts once, and returns it.
fn count_once(counters: &Counters) -> io::Result<u32> {
    let mut counter = counters.pull()?;
    *counter = counter.saturating_add(1);
    Ok(*counter)
}

#[cfg(test)]
mod tests;

ghost use Rattle.std.specs.Prelude.{◌≡◌, IfOk, IfErr};

use lockfree_object_pool::clean::Clean;
use lockfree_object_pool::closures::Copied;
use lockfree_object_pool::{MutexObjectPool, MutexReusable, PullError};
use std::alloc::Global;
use std::sync::Wait;

/// The condition that a value is 0.
struct Zero;

impl Clean<u32> for Zero {
    ghost meets = { λ value. value ≡ 0 };
}

/// A mutex pool that makes zeros and resets to 0.
type ClearedByMutex = MutexObjectPool<u32, Copied<u32, Zero>, Copied<u32, Zero>, Zero>;

/// Attaches a 9 to a pool, and returns what the item shows.
fn by_mutex<W: Wait + Copy>(rt: &W, pool: &ClearedByMutex) -> Result<u32, u32>
    ensures shown { IfOk result (λ shown. shown ≡ 9) }
    ensures back { IfErr result (λ back. back ≡ 9) }
{
    let item = MutexReusable::new(rt, pool, 9)?;
    Ok(*item)
}

/// Returns what the next pull shows: the attached item, reset.
fn pulled_next<W: Wait + Copy>(rt: &W, alloc: Global) -> Result<u32, PullError>
    ensures { IfOk result (λ value. value ≡ 0) }
{
    let pool: ClearedByMutex = MutexObjectPool::new(alloc, Copied::new(0), Copied::new(0));
    let _ = by_mutex(rt, &pool);
    Ok(*pool.pull(rt)?)
}

#[cfg(test)]
mod tests;

//! Eight threads on a fixed pool of eight items, each with one item at a time: so an item is free
//! whenever one pulls.
use lockfree_object_pool::clean::AnyValue;
use lockfree_object_pool::closures::Copied;
use lockfree_object_pool::{FixedObjectPool, PullError};
use std::alloc::Global;
use std::sync::Arc;
use std::thread;
use std::thread::Threads;

/// How many threads and items there are.
const THREADS: usize = 8;

type Pool = FixedObjectPool<u32, Copied<u32, AnyValue>, Copied<u32, AnyValue>, AnyValue>;

/// Pulls an item in each round and returns it. How many pulls were refused.
fn refusals(pool: &Arc<Pool>, rounds: u32) -> usize {
    let mut refused = 0usize;
    for round in 0..rounds {
        let is_pulled = match round % 3 {
            0 => pool.pull().is_ok(),
            1 => pool.pull_near(round as usize).is_ok(),
            _ => pool.pull_owned().is_ok(),
        };
        if !is_pulled {
            refused = refused.saturating_add(1);
        }
    }
    refused
}

/// Counts how many pulls of the eight threads were refused.
pub fn refused<R: Threads>(rt: &R, alloc: Global, rounds: u32) -> Result<usize, PullError> {
    let pool: Pool = FixedObjectPool::new(alloc, Copied::new(0), Copied::new(0), THREADS)?;
    let pool = Arc::new(alloc, pool)?;
    let mut threads = Vec::with_capacity(alloc, THREADS)?;
    for _ in 0..THREADS {
        let pool = Arc::try_clone(&pool)?;
        let thread = thread::spawn(rt, move || refusals(&pool, rounds)).map_err(|_| {
            PullError::Memory
        })?;
        threads.push(thread)?;
    }
    let mut refused = 0usize;
    for thread in threads {
        refused = refused.saturating_add(thread.join(rt));
    }
    Ok(refused)
}

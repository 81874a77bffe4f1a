//! The pools of a recyclable type.
use crate::assert_equal::assert_equal;
use lockfree_object_pool::PullError;
use lockfree_object_pool::free_list::FreeList;
use lockfree_object_pool::made_or_reset::MadeOrReset;
use lockfree_object_pool::recycling::{
    FixedPool, LazyPool, MutexPool, Pool, Recycler, SpinLockPool,
};
use lockfree_object_pool::stack_object_pool::StackObjectPool;
use std::alloc::Global;
use std::process::Abort;
use std::sync::{Arc, Wait};

#[test]
fn a_linear_pool_recycles_vectors(rt: HostRuntime) -> Result<(), PullError> {
    let alloc = rt.alloc();
    let pool = Pool::<Vec<u8>>::with_recycler(alloc)?;
    pool.pull()?.push(5)?; // its drop brings it back
    assert_eq!(rt; pool.pull()?.len(), 0);
    assert_equal(&rt, length_of_owned(alloc, pool), Ok(0));
    Ok(())
}

/// Returns how long an owned vector of a pool is.
fn length_of_owned(alloc: Global, pool: Pool<Vec<u8>>) -> Result<usize, PullError> {
    let pool = Arc::new(alloc, pool)?;
    let item = pool.pull_owned()?; // may go to any thread
    Ok(item.len())
}

#[test]
fn a_limited_pool_recycles_vectors(rt: HostRuntime) -> Result<(), PullError> {
    let alloc = rt.alloc();
    let pool = Pool::<Vec<u8>>::with_recycler_within(alloc, 2)?; // at most 64 vectors
    assert_equal(&rt, pool.pull().expect(&rt, "an item is free").len(), 0);
    Ok(())
}

#[test]
fn pools_of_eight_recycle_vectors(rt: HostRuntime) -> Result<(), PullError> {
    let alloc = rt.alloc();
    let pool = FixedPool::<Vec<u8>>::with_recycler(alloc, 8)?;
    assert_eq!(rt; pool.pull()?.len(), 0);
    drop(pool);
    let pool = LazyPool::<Vec<u8>>::with_recycler(alloc, 8)?;
    assert_eq!(rt; pool.pull()?.len(), 0);
    Ok(())
}

#[test]
fn stack_pools_recycle_vectors(rt: HostRuntime) -> Result<(), PullError> {
    let alloc = rt.alloc();
    let pool = MutexPool::<Vec<u8>>::with_recycler(alloc);
    pull_empty(rt, &pool)?;
    drop(pool);
    let pool = SpinLockPool::<Vec<u8>>::with_recycler(alloc)?;
    pull_empty(rt, &pool)
}

/// Pulls a vector of a stack pool, which comes empty.
fn pull_empty<
    W: Abort + Wait + Copy,
    F: FreeList<Vec<u8>, MadeOrReset<Recycler, Recycler, Recycler>>,
>(
    rt: W,
    pool: &StackObjectPool<Vec<u8>, Recycler, Recycler, Recycler, F>,
) -> Result<(), PullError> {
    assert_eq!(rt; pool.pull(&rt)?.len(), 0);
    Ok(())
}

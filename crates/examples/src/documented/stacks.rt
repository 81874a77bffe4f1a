//! The pools over a lock, and their reusables.
use crate::assert_equal::assert_equal;
use lockfree_object_pool::clean::AnyValue;
use lockfree_object_pool::closures::{Copied, Init, Keep, Reset};
use lockfree_object_pool::free_list::FreeList;
use lockfree_object_pool::made_or_reset::MadeOrReset;
use lockfree_object_pool::stack_object_pool::StackObjectPool;
use lockfree_object_pool::{
    MutexObjectPool, MutexOwnedReusable, MutexReusable, PullError, SpinLockObjectPool,
    SpinLockReusable,
};
use std::alloc::Global;
use std::process::Abort;
use std::sync::{Arc, Wait};
use std::test::Fail;

#[test]
fn the_mutex_pool_keeps_a_value(rt: HostRuntime) -> Result<(), PullError> {
    let alloc = rt.alloc();
    let pool: MutexObjectPool<u32, _, _> = MutexObjectPool::new(alloc, Copied::new(0), Keep);
    keep_five(rt, &pool)
}

#[test]
fn the_spin_lock_pool_keeps_a_value(rt: HostRuntime) -> Result<(), PullError> {
    let alloc = rt.alloc();
    let pool: SpinLockObjectPool<u32, _, _> = SpinLockObjectPool::new(alloc, Copied::new(0), Keep)?;
    keep_five(rt, &pool)
}

/// Makes zeros.
type Zeros = Copied<u32, AnyValue>;

/// Writes 5 to an item of a pool, and pulls it again.
fn keep_five<W: Abort + Wait + Copy, F: FreeList<u32, MadeOrReset<Zeros, Keep, AnyValue>>>(
    rt: W,
    pool: &StackObjectPool<u32, Zeros, Keep, AnyValue, F>,
) -> Result<(), PullError> {
    *pool.pull(&rt)? = 5; // its drop keeps it
    assert_eq!(rt; *pool.pull(&rt)?, 5);
    Ok(())
}

/// A mutex pool of zeros that keeps what was written last.
type MutexZeros = MutexObjectPool<u32, Zeros, Keep>;

/// Attaches 6 to a pool by an owner of it.
fn attach_by_owner<W: Wait + Copy, I: Init<u32, AnyValue>, R: Reset<u32, AnyValue>>(
    rt: W,
    pool: &Arc<MutexObjectPool<u32, I, R>>,
) -> Result<(), Fail> {
    let owner = Arc::try_clone(&pool)?;
    let item = MutexOwnedReusable::new(&rt, owner, 6)?;
    drop(item);
    Ok(())
}

#[test]
fn a_value_is_attached(rt: HostRuntime) -> Result<(), Fail> {
    let alloc = rt.alloc();
    let pool = MutexZeros::new(alloc, Copied::new(0), Keep);
    let item = MutexReusable::new(&rt, &pool, 5)?; // its drop gives the pool a value
    drop(item);
    assert_equal(&rt, pool.kept(&rt), 1);
    let pool = Arc::new(alloc, pool).expect(&rt, "memory is left");
    attach_by_owner(rt, &pool)?;
    let kept = pool.kept(&rt);
    let pulled = *pool.pull(&rt).expect(&rt, "a value is kept");
    assert_equal(&rt, (kept, pulled), (2, 6));
    Ok(())
}

/// Returns what an owned item of a pool shows.
fn owned_value<W: Wait + Copy, F: FreeList<u32, MadeOrReset<Zeros, Keep, AnyValue>>>(
    rt: W,
    alloc: Global,
    pool: StackObjectPool<u32, Zeros, Keep, AnyValue, F>,
) -> Result<u32, PullError> {
    let pool = Arc::new(alloc, pool)?;
    let item = pool.pull_owned(&rt)?; // may go to any thread
    Ok(*item)
}

#[test]
fn a_value_is_attached_under_a_spin_lock(rt: HostRuntime) -> Result<(), Fail> {
    let alloc = rt.alloc();
    let pool = SpinLockObjectPool::<u32, _, _>::new(alloc, Copied::new(0), Keep)?;
    let item = SpinLockReusable::new(&rt, &pool, 5)?; // its drop gives the pool a value
    drop(item);
    let item = pool.pull(&rt)?;
    assert_eq!(rt; item.detach(), 5); // the value is out of the pool for good
    assert_equal(&rt, pool.kept(&rt), 0);
    assert_equal(&rt, owned_value(rt, alloc, pool), Ok(0));
    Ok(())
}

//! The fixed pool and its reusables.
ghost use Rattle.std.specs.Prelude.{◌<◌};

use crate::assert_equal::assert_equal;
use lockfree_object_pool::clean::AnyValue;
use lockfree_object_pool::closures::{Copied, Keep};
use lockfree_object_pool::{FixedObjectPool, PullError};
use std::sync::Arc;

#[test]
fn an_item_comes_again_reset(rt: HostRuntime) -> Result<(), PullError> {
    let alloc = rt.alloc();
    let pool = FixedObjectPool::<u32, _, _>::new(alloc, Copied::new(0), Copied::new(0), 1_000)?;
    let mut item = pool.pull()?; // takes no memory
    *item = 5;
    drop(item); // the value is 0 again, and in the pool
    assert_equal(&rt, *pool.pull().expect(&rt, "an item is free"), 0);
    Ok(())
}

/// A pool that keeps what was written last.
type Keeping = FixedObjectPool<u32, Copied<u32, AnyValue>, Keep>;

/// Returns the page at which a place begins, and that of the item that is pulled there.
fn pages_at_a_place(pool: &Keeping) -> Result<(usize, usize), PullError> {
    let near = pool.near();
    let item = near.pull()?;
    Ok((near.page_number(), item.page_number()))
}

/// Returns the page of the item that this thread pulls near its own.
fn page_near(pool: &Keeping, thread: usize) -> Result<usize, PullError>
    requires { thread < 8 }
{
    let item = pool.pull_near(8 * thread)?;
    Ok(item.page_number())
}

#[test]
fn a_thread_pulls_near_its_place(rt: HostRuntime) {
    let pool = Keeping::new(rt.alloc(), Copied::new(0), Keep, 1_000).expect(&rt, "a pool is made");
    assert_equal(&rt, pages_at_a_place(&pool), Ok((0, 0)));
    assert_equal(&rt, page_near(&pool, 1), Ok(8));
}

#[test]
fn an_owned_item_keeps_its_pool(rt: HostRuntime) -> Result<(), PullError> {
    let alloc = rt.alloc();
    let pool = FixedObjectPool::<u32, _, _>::new(alloc, Copied::new(0), Copied::new(0), 8)?;
    let pool = Arc::new(alloc, pool)?;
    let mut item = pool.pull_owned()?;
    drop(pool); // the item keeps the pool alive
    *item = 5;
    assert_equal(&rt, *item, 5);
    Ok(())
}

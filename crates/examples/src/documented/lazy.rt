//! The lazy pool and its reusables.
use crate::assert_equal::assert_equal;
use lockfree_object_pool::clean::AnyValue;
use lockfree_object_pool::closures::{Copied, Keep};
use lockfree_object_pool::{LazyObjectPool, PullError};
use std::sync::Arc;
use std::time::Duration;

#[test]
fn an_item_is_made_when_it_is_needed(rt: HostRuntime) -> Result<(), PullError> {
    let alloc = rt.alloc();
    let pool = LazyObjectPool::<u32, _, _>::new(alloc, Copied::new(0), Copied::new(0), 1_000)?;
    let mut item = pool.pull()?; // makes an item, since there is none yet
    *item = 5;
    drop(item); // the value is 0 again, and in the pool
    let other = pool.pull_timeout(&rt, Duration::from_millis(20))?; // it waits if all are in use
    assert_equal(&rt, (*other, pool.made()), (0, 1));
    Ok(())
}

/// A pool that keeps what was written last.
type Keeping = LazyObjectPool<u32, Copied<u32, AnyValue>, Keep>;

/// Writes to an item at a place, a thousand times.
fn write_at_a_place(pool: &Keeping) -> Result<(), PullError> {
    let near = pool.near(); // one for each thread
    for _ in 0..1_000 {
        let mut item = near.pull()?; // meets no other thread, as long as the page has a free item
        *item = 5;
    }
    Ok(())
}

/// Returns the value that is pulled at the next place.
fn value_at_a_place(pool: &Keeping) -> Result<u32, PullError> {
    let near = pool.near();
    let item = near.pull()?;
    Ok(*item)
}

#[test]
fn a_thread_pulls_near_its_place(rt: HostRuntime) -> Result<(), PullError> {
    let alloc = rt.alloc();
    let pool = LazyObjectPool::<u32, _, _>::new(alloc, Copied::new(0), Keep, 1_000)?;
    let written = write_at_a_place(&pool);
    assert_equal(&rt, (written, value_at_a_place(&pool)), (Ok(()), Ok(0)));
    Ok(())
}

#[test]
fn an_item_is_taken_out_of_its_pool(rt: HostRuntime) -> Result<(), PullError> {
    let alloc = rt.alloc();
    let pool = Keeping::new(alloc, Copied::new(0), Keep, 1).expect(&rt, "a pool is made");
    let pool = Arc::new(alloc, pool)?;
    let mut item = pool.pull_owned()?;
    *item = 5;
    let value = item.detach(); // a later pull makes a new item
    let made = *pool.pull().expect(&rt, "an item is made");
    assert_equal(&rt, (value, made), (5, 0));
    Ok(())
}

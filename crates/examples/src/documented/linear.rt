//! The linear pool and its reusables.
use crate::assert_equal::assert_equal;
use lockfree_object_pool::clean::{AnyValue, Empty};
use lockfree_object_pool::closures::{Clear, Copied, Keep, Kept, WithCapacity};
use lockfree_object_pool::{LinearObjectPool, PullError};
use std::sync::Arc;

#[test]
fn an_item_comes_again_reset(rt: HostRuntime) -> Result<(), PullError> {
    let alloc = rt.alloc();
    let pool = LinearObjectPool::<u32, _, _>::new(alloc, Copied::new(0), Copied::new(0))?;
    let mut item = pool.pull()?;
    *item = 5;
    drop(item); // the value is 0 again, and in the pool
    assert_equal(&rt, *pool.pull().expect(&rt, "an item is free"), 0);
    Ok(())
}

#[test]
fn two_pages_have_64_items(rt: HostRuntime) -> Result<(), PullError> {
    let alloc = rt.alloc();
    // at most 64 items
    let pool = LinearObjectPool::<u32, _, _>::with_limit(alloc, Copied::new(0), Keep, 2)?;
    assert_equal(&rt, pool.limit(), Some(2));
    Ok(())
}

#[test]
fn an_owned_item_keeps_its_pool(rt: HostRuntime) -> Result<(), PullError> {
    let alloc = rt.alloc();
    let pool = LinearObjectPool::<u32, _, _>::new(alloc, Copied::new(0), Keep)?;
    let pool = Arc::new(alloc, pool)?;
    let mut item = pool.pull_owned()?;
    drop(pool); // the item keeps the pool alive
    *item = 5;
    assert_equal(&rt, *item, 5);
    Ok(())
}

#[test]
fn a_kept_value_comes_again(rt: HostRuntime) -> Result<(), PullError> {
    let alloc = rt.alloc();
    let kept = Kept::<u32, AnyValue>::new(); // each value meets this condition
    let pool = LinearObjectPool::<u32, _, _>::new(alloc, Copied::new(0), kept)?;
    *pool.pull().expect(&rt, "an item is free") = 5;
    assert_equal(&rt, *pool.pull().expect(&rt, "an item is free"), 5);
    Ok(())
}

#[test]
fn a_vector_comes_empty(rt: HostRuntime) -> Result<(), PullError> {
    let alloc = rt.alloc();
    let room = WithCapacity::new(alloc, 4096);
    let pool = LinearObjectPool::<Vec<u8>, _, _, Empty>::new(alloc, room, Clear)?;
    pool.pull()?.push(5)?; // its drop empties the vector, which keeps its room
    assert_equal(&rt, pool.pull().expect(&rt, "an item is free").len(), 0);
    Ok(())
}

//! What a worker and its items live in. The compiler refuses other bodies
//! (`wrong_bodies`).
use crate::assert_equal::assert_equal;
use fixed_pools::FixedObjectPool;
use pool_parts::PullError;
use pool_parts::clean::AnyValue;
use pool_parts::closures::{Copied, Keep};
use pool_workers::Worker;
use std::alloc::Global;

type Numbers = FixedObjectPool<u32, Copied<u32, AnyValue>, Keep>;

/// Returns the value of an item of a new pool's worker.
fn seven(alloc: Global) -> Result<u32, PullError> {
    let pool = Numbers::new(alloc, Copied::new(7), Keep, 1)?;
    let worker = Worker::new(pool.near());
    let item = worker.pull()?;
    let value = *item;
    Ok(value)
}

#[test]
fn an_item_is_read_while_its_worker_and_pool_live(rt: HostRuntime) {
    assert_equal(&rt, seven(rt.alloc()), Ok(7));
}

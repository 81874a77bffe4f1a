//! Workers of a pool and their reusables.
use crate::assert_equal::assert_equal;
use lockfree_object_pool::clean::AnyValue;
use lockfree_object_pool::closures::Copied;
use lockfree_object_pool::{FixedObjectPool, LinearObjectPool, PullError, Worker};
use std::alloc::Global;

/// What makes and resets zeros.
type Zero = Copied<u32, AnyValue>;

/// Returns the sum of what a worker's items are when they come.
fn sum_of_turns(pool: &FixedObjectPool<u32, Zero, Zero>) -> Result<u32, PullError> {
    let mut sum: u32 = 0;
    let worker = Worker::new(pool.near()); // one for each thread
    for _ in 0..1_000 {
        let mut item = worker.pull()?; // the first pull is the pool's, and the others cost no step
        sum = sum.saturating_add(*item);
        *item = 5;
    } // its drop leaves 0, and the worker keeps the item
    Ok(sum)
}

/// Pulls two items at once by a worker that keeps both, and pulls them again. Returns their numbers.
fn pull_twice(
    alloc: Global,
    pool: &FixedObjectPool<u32, Zero, Zero>,
) -> Result<[usize; 4], PullError> {
    let worker = Worker::with_room(alloc, pool.near(), 8)?;
    let (first, second) = (worker.pull()?, worker.pull()?);
    let before = (first.item().number(), second.item().number());
    drop((first, second)); // it keeps both
    let (last, other) = (worker.pull()?, worker.pull()?);
    Ok([
        before.0,
        before.1,
        last.item().number(),
        other.item().number(),
    ])
}

/// Returns the numbers of a worker's item in its pool, and in the page.
fn numbers(alloc: Global) -> Result<(usize, u8), PullError> {
    let pool = LinearObjectPool::<u32, _, _>::new(alloc, Zero::new(0), Zero::new(0))?;
    let worker = Worker::new(&pool);
    let item = worker.pull()?;
    let place = (item.item().page_number(), item.item().page_id());
    Ok(place)
}

#[test]
fn a_worker_uses_an_item_again(rt: HostRuntime) {
    let pool = FixedObjectPool::new(rt.alloc(), Zero::new(0), Zero::new(0), 8);
    let pool = pool.expect(&rt, "a pool is made");
    assert_equal(&rt, sum_of_turns(&pool), Ok(0));
    assert_equal(&rt, pull_twice(rt.alloc(), &pool), Ok([0, 1, 1, 0]));
    assert_equal(&rt, numbers(rt.alloc()), Ok((0, 0)));
}

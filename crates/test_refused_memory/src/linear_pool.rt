//! Linear pools: what is refused loses no item, and can be asked for again.
use crate::assert_equal::assert_equal;
use crate::refusals::{Refusals, again};
use lockfree_object_pool::clean::AnyValue;
use lockfree_object_pool::closures::Keep;
use lockfree_object_pool::{LinearObjectPool, PullError};
use std::alloc::Global;
use std::mem;
use std::process::Abort;
use std::sync::Arc;
use test_values::tallied::{Tallied, TalliedValues};
use test_values::tally::Tally;

/// A pool of values that are tallied.
type Tracked = LinearObjectPool<Tallied, TalliedValues, Keep, AnyValue>;

/// A pool without a limit.
fn unbounded(alloc: Global, tally: &Arc<Tally>) -> Result<Arc<Tracked>, PullError> {
    let pool = LinearObjectPool::new(alloc, TalliedValues::new(tally)?, Keep)?;
    Ok(Arc::new(alloc, pool)?)
}

/// A pool that may have two pages.
fn bounded(alloc: Global, tally: &Arc<Tally>) -> Result<Arc<Tracked>, PullError> {
    let pool = LinearObjectPool::with_limit(alloc, TalliedValues::new(tally)?, Keep, 2)?;
    Ok(Arc::new(alloc, pool)?)
}

/// Takes 32 items of a pool out for good.
fn forget_page(rt: &impl Abort, pool: &Tracked) {
    for _ in 0..32 {
        mem::forget(pool.pull().expect(rt, "32 items are free"));
    }
}

/// Takes the items of the first page out. What was made for a pool that was refused is dropped.
fn use_up(rt: &impl Abort, pool: &Tracked, tally: &Tally) {
    assert_equal(rt, tally.living(), 32);
    forget_page(rt, pool);
}

/// Records that a pull was refused, if it was. It was for memory, and made nothing.
fn see(rt: &impl Abort, refusals: &Refusals, tally: &Tally, refusal: Option<PullError>) {
    if let Some(refusal) = refusal {
        refusals.note();
        assert_equal(rt, (refusal, tally.living()), (PullError::Memory, 32));
    }
}

/// Pulls the first item of the second page, and again after its return. It is the same.
fn pull_twice(rt: &impl Abort, pool: &Tracked, tally: &Tally) {
    let item = pool.pull().expect(rt, "one request alone is refused");
    assert_equal(rt, (item.page_number(), item.page_id()), (1, 0));
    assert_equal(rt, tally.living(), 64);
    let number = item.number;
    drop(item);
    let again = pool.pull().expect(rt, "an item is free").number;
    assert_equal(rt, again, number);
}

#[test]
fn a_pull_that_was_refused_is_asked_again(rt: HostRuntime) {
    let refusals = Refusals::new();
    let tally = refusals.tally(&rt);
    let pool = again!(&rt, refusals, unbounded(rt.alloc(), &tally));
    use_up(&rt, &pool, &tally);
    see(&rt, &refusals, &tally, pool.pull().err());
    pull_twice(&rt, &pool, &tally);
    refusals.tell(&rt);
}

/// Does so with owned items.
fn pull_owned_twice(rt: &impl Abort, pool: &Arc<Tracked>, tally: &Tally) {
    let item = pool.pull_owned().expect(rt, "one request alone is refused");
    assert_equal(rt, (item.page_number(), item.page_id()), (1, 0));
    assert_equal(rt, tally.living(), 64);
    let number = item.number;
    drop(item);
    let again = pool.pull_owned().expect(rt, "an item is free").number;
    assert_equal(rt, again, number);
}

#[test]
fn an_owned_pull_that_was_refused_is_asked_again(rt: HostRuntime) {
    let refusals = Refusals::new();
    let tally = refusals.tally(&rt);
    let pool = again!(&rt, refusals, bounded(rt.alloc(), &tally));
    use_up(&rt, &pool, &tally);
    see(&rt, &refusals, &tally, pool.pull_owned().err());
    pull_owned_twice(&rt, &pool, &tally);
    drop(pool);
    assert_equal(&rt, tally.living(), 32);
    refusals.tell(&rt);
}

/// Where no page may be linked beside those that there are, a refusal is for the limit. Before, it
/// is for memory.
#[test]
fn a_bounded_pull_tells_want_of_memory_from_its_limit(rt: HostRuntime) {
    let refusals = Refusals::new();
    let tally = refusals.tally(&rt);
    let pool = again!(&rt, refusals, bounded(rt.alloc(), &tally));
    use_up(&rt, &pool, &tally);
    see(&rt, &refusals, &tally, pool.pull().err());
    forget_page(&rt, &pool);
    assert_equal(&rt, pool.pull().err(), Some(PullError::Limit));
    assert_equal(&rt, tally.living(), 64);
    refusals.tell(&rt);
}

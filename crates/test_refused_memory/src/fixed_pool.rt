//! Fixed pools: a refused opening drops what it made, and nothing behind it takes memory.
use crate::assert_equal::assert_equal;
use crate::refusals::{Refusals, again};
use lockfree_object_pool::clean::AnyValue;
use lockfree_object_pool::closures::Keep;
use lockfree_object_pool::{FixedObjectPool, PullError};
use std::alloc::Global;
use std::process::Abort;
use std::sync::Arc;
use test_values::tallied::{Tallied, TalliedValues};
use test_values::tally::Tally;

/// How many items the pools here have: three pages, the last with one item.
const ITEMS: usize = 65;

/// A pool of values that are tallied.
type Tracked = FixedObjectPool<Tallied, TalliedValues, Keep, AnyValue>;

fn tracked(alloc: Global, tally: &Arc<Tally>) -> Result<Arc<Tracked>, PullError> {
    let pool = FixedObjectPool::new(alloc, TalliedValues::new(tally)?, Keep, ITEMS)?;
    Ok(Arc::new(alloc, pool)?)
}

/// Such a pool. Where it is refused, each value that was made for it is dropped.
fn opened(rt: &impl Abort, alloc: Global, refusals: &Refusals, tally: &Arc<Tally>) -> Arc<Tracked> {
    let pool = again!(rt, refusals, tracked(alloc, tally));
    assert_equal(rt, tally.living(), ITEMS);
    pool
}

#[test]
fn a_fixed_pool_that_was_refused_is_made_again(rt: HostRuntime) {
    let refusals = Refusals::new();
    let tally = refusals.tally(&rt);
    drop(opened(&rt, rt.alloc(), &refusals, &tally));
    assert_equal(&rt, tally.living(), 0);
    refusals.tell(&rt);
}

/// Three hundred pulls and returns ask for no memory, whichever request is refused: a refusal would
/// be another than `Limit`.
#[test]
fn pulls_and_returns_in_turn_take_no_memory(rt: HostRuntime) {
    let refusals = Refusals::new();
    let tally = refusals.tally(&rt);
    let pool = opened(&rt, rt.alloc(), &refusals, &tally);
    for page in 0..100 {
        drop(pool.pull().expect(&rt, "an item is free"));
        drop(pool.pull_near(page).expect(&rt, "an item is free"));
        drop(pool.pull_owned().expect(&rt, "an item is free"));
    }
    assert_equal(&rt, tally.living(), ITEMS);
    refusals.tell(&rt);
}

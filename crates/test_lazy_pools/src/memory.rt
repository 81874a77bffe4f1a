//! Pools that are made where memory is refused, and calls that take none.
use crate::items::{Pool, made};
use crate::plays::{ends, pool_of};
use lazy_pools::PullError;
use pool_model::book::new_book;
use pool_model::value::Value;
use std::process::Abort;
use std::rt::Clock;
use std::sync::{Arc, Wait};
use std::time::Duration;
use test_values::again;

#[test]
fn a_pool_is_made_again_where_memory_was_refused(rt: HostRuntime) {
    let book = again!(new_book(rt.alloc())).expect(&rt, "one request alone is refused");
    let pool = again!(pool_of(rt.alloc(), &book, 70)).expect(&rt, "one request alone is refused");
    let first = pool.pull().map(|item| item.serial);
    assert!(rt; (first, pool.items(), pool.made()) == (Ok(0), 70, 1));
    assert!(rt; ends(pool, &book, None, 0));
}

#[test]
fn an_item_takes_no_memory(rt: HostRuntime) {
    let book = again!(new_book(rt.alloc())).expect(&rt, "one request alone is refused");
    let pool = again!(pool_of(rt.alloc(), &book, 2)).expect(&rt, "one request alone is refused");
    for _ in 0..3 {
        let first = pool.pull_owned().expect(&rt, "an item is free");
        let second = pool.pull_wait(&rt).expect(&rt, "an item is free");
        let other = pool.pull_owned_timeout(&rt, Duration::from_millis(1)).err();
        assert!(rt; other == Some(PullError::Limit));
        drop(first);
        drop(second);
    }
    assert!(rt; ends(pool, &book, None, 0));
}
/// Makes no value.
fn never() -> Result<Value, PullError> {
    Err(PullError::Init)
}

/// Pulls an item by each kind of pull that waits and makes by a closure, which fails, and drops what
/// is kept.
fn wait_and_clear<R: Abort + Wait + Clock>(rt: &R, pool: &Arc<Pool>) {
    let time = Duration::from_millis(1);
    let refusals = [
        made(pool.pull_wait_with(rt, never)).err(),
        made(pool.pull_timeout_with(rt, time, never)).err(),
        made(pool.pull_owned_wait_with(rt, never)).err(),
        made(pool.pull_owned_timeout_with(rt, time, never)).err(),
        pool.pull_owned_wait(rt).err(),
        made(pool.pull_with(never)).err(),
        pool.fill(2).err(),
    ];
    pool.clear();
    let init = Some(PullError::Init);
    assert!(*rt; refusals == [init, init, init, init, None, None, None]);
    assert!(*rt; (pool.waiting(), pool.in_use()) == (0, 0));
}

/// Closes a pool while an item is in use, which comes back then. Whether the pool is closed, why a
/// pull fails, and how many items are in use at the end.
fn close_beside_one<R: Wait>(rt: &R, pool: &Pool) -> (bool, Option<PullError>, usize) {
    let item = pool.pull_wait(rt);
    pool.close();
    let refusal = pool.pull_wait(rt).err();
    drop(item);
    (pool.is_closed(), refusal, pool.in_use())
}

#[test]
fn waits_and_clearings_of_a_lazy_pool_ask_for_no_memory(rt: HostRuntime) {
    let Ok(book) = new_book(rt.alloc()) else {
        return;
    };
    let Ok(pool) = pool_of(rt.alloc(), &book, 2) else {
        return;
    };
    let told = println!(rt; "from here on no memory is asked for");
    told.expect(&rt, "standard output is there");
    for _ in 0..3 {
        wait_and_clear(&rt, &pool);
    }
    let end = close_beside_one(&rt, &pool);
    assert!(rt; end == (true, Some(PullError::Closed), 0));
}

//! Worked cases of the pool that keeps nothing.
use none_pools::{NoneObjectPool, NoneReusable};
use pool_parts::PullError;
use std::process::Abort;
use std::sync::Arc;
use test_values::tally::Tally;

/// Each pull shows a 0, which is written and dropped.
fn writes(rt: &(impl Abort + AllocGlobal), numbers: &[u32]) {
    let pool = NoneObjectPool::new(|| Some(0u32));
    for number in numbers {
        let mut item = pool.pull().expect(rt, "an item is made");
        let made = *item;
        *item += *number;
        assert_eq!(*rt; (made, *item), (0, *number));
    }
    let pool = Arc::new(rt.alloc(), pool).expect(rt, "memory is left");
    assert_eq!(*rt; pool.pull_owned().map(|item| *item), Ok(0));
}

#[test]
fn a_written_value_is_gone(rt: HostRuntime) {
    writes(&rt, &[5]);
}

#[test]
fn what_was_added_is_gone_twice(rt: HostRuntime) {
    writes(&rt, &[1, 1]);
}

#[test]
fn each_item_is_dropped_once(rt: HostRuntime) {
    let counts = Tally::new();
    let pool = NoneObjectPool::new(|| Some(counts.make()));
    let pool = Arc::new(rt.alloc(), pool).expect(&rt, "memory is left");
    let first = pool.pull().expect(&rt, "an item is made");
    let second = pool.pull_owned().expect(&rt, "an item is made");
    let attached = NoneReusable::new(counts.make());
    assert_eq!(rt; (first.call, second.call, attached.call), (0, 1, 2));
    assert_eq!(rt; (Arc::strong_count(&pool), counts.now()), (1, (3, 0)));
    drop(first);
    assert_eq!(rt; counts.drops(), 1);
    drop(second);
    assert_eq!(rt; counts.drops(), 2);
    drop(attached);
    drop(pool);
    assert_eq!(rt; counts.now(), (3, 3));
}

#[test]
fn a_pull_that_init_refused_once_is_met_then(rt: HostRuntime) {
    let counts = Tally::new();
    let pool = NoneObjectPool::new(|| counts.make_but(0));
    assert_eq!(rt;
        (pool.pull().err(), counts.calls()),
        (Some(PullError::Init), 1)
    );
    assert_eq!(rt; pool.pull().map(|item| item.call), Ok(1));
    let others = Tally::new();
    let pool = NoneObjectPool::new(|| others.make_but(0));
    let pool = Arc::new(rt.alloc(), pool).expect(&rt, "memory is left");
    assert_eq!(rt;
        (pool.pull_owned().err(), others.calls()),
        (Some(PullError::Init), 1)
    );
    assert_eq!(rt; pool.pull_owned().map(|item| item.call), Ok(1));
    assert_eq!(rt; (counts.now(), others.now()), ((2, 1), (2, 1)));
}

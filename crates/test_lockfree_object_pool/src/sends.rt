//! Callers that need pools and reusables to be sent and shared, each under the least that its parts
//! have to allow: a fixed pool keeps no `init`, so nothing is asked of that.
use crate::assert_equal::assert_equal;
use lockfree_object_pool::clean::{AnyValue, Clean};
use lockfree_object_pool::closures::{Copied, Init, InitBy, Kept, Makes, Reset, ResetBy, Resets};
use lockfree_object_pool::{
    FixedObjectPool, FixedOwnedReusable, FixedReusable, LinearObjectPool, LinearOwnedReusable,
    LinearReusable,
};
use std::ops::Deref;
use std::thread::{self, Threads};

fn is_sent<X: Send>(_value: &X) {}

fn is_shared<X: Sync>(_value: &X) {}

fn pools_sent<
    T: Send + Drop,
    I: Init<T, K> + Send,
    J: Init<T, K>,
    R: Reset<T, K> + Send,
    K: Clean<T>,
>(linear: &LinearObjectPool<T, I, R, K>, fixed: &FixedObjectPool<T, J, R, K>) {
    is_sent(linear);
    is_sent(fixed);
}

/// Pools that may be shared, and their items, which may be sent then.
fn pools_shared<
    T: Send + Drop,
    I: Init<T, K> + Send + Sync,
    J: Init<T, K>,
    R: Reset<T, K> + Send + Sync,
    K: Clean<T>,
>(
    pools: (&LinearObjectPool<T, I, R, K>, &FixedObjectPool<T, J, R, K>),
    linear: (
        &LinearReusable<'_, T, I, R, K>,
        &LinearOwnedReusable<T, I, R, K>,
    ),
    fixed: (
        &FixedReusable<'_, T, J, R, K>,
        &FixedOwnedReusable<T, J, R, K>,
    ),
) {
    is_shared(pools.0);
    is_shared(pools.1);
    is_sent(linear.0);
    is_sent(linear.1);
    is_sent(fixed.0);
    is_sent(fixed.1);
}

fn linear_shared<
    T: Send + Sync + Drop,
    I: Init<T, K> + Send + Sync,
    R: Reset<T, K> + Send + Sync,
    K: Clean<T>,
>(item: &LinearReusable<'_, T, I, R, K>, owned: &LinearOwnedReusable<T, I, R, K>) {
    is_shared(item);
    is_shared(owned);
}

fn fixed_shared<T: Send + Sync + Drop, I: Init<T, K>, R: Reset<T, K> + Send + Sync, K: Clean<T>>(
    item: &FixedReusable<'_, T, I, R, K>,
    owned: &FixedOwnedReusable<T, I, R, K>,
) {
    is_shared(item);
    is_shared(owned);
}

/// What makes zeros, or resets to 0.
type Zeros = Copied<u32, AnyValue>;

/// What two threads read that share one item.
fn read_twice<X: Deref<Target = u32> + Sync, R: Threads + Sync>(rt: &R, item: &X) -> (u32, u32) {
    thread::join(rt, || **item, || **item)
}

#[test]
fn two_threads_read_one_item(rt: HostRuntime) {
    let (init, reset): (Zeros, Zeros) = (Copied::new(0), Copied::new(0));
    let pool = FixedObjectPool::new(rt.alloc(), init, reset, 1).expect(&rt, "a pool is made");
    let mut item = pool.pull().expect(&rt, "an item is free");
    *item = 3;
    assert_equal(&rt, read_twice(&rt, &item), (3, 3));
    drop(item);
    assert_equal(&rt, *pool.pull().expect(&rt, "an item is free"), 0);
}

/// What makes and resets by closures, and a reset that changes nothing, may be sent and shared where
/// their values may only be sent. So may each kind of pool by them then.
fn parts_sent_and_shared<
    T: Send + Drop,
    I: InitBy<T> + Send,
    J: InitBy<T> + Sync,
    R: ResetBy<T> + Send,
    S: ResetBy<T> + Sync,
    K: Clean<T> + Send,
>(
    makes: (&Makes<T, I, K>, &Makes<T, J, K>),
    resets: (&Resets<T, R, K>, &Resets<T, S, K>),
    kept: &Kept<T, K>,
) {
    is_sent(makes.0);
    is_shared(makes.1);
    is_sent(resets.0);
    is_shared(resets.1);
    is_sent(kept);
    is_shared(kept);
}

//! Workers that go to a thread, with the item that they keep.
use crate::assert_equal::assert_equal;
use crate::pools::{Fixed, Lazy, fixed_of, lazy_of};
use fixed_pools::near::Near as FixedNear;
use lazy_pools::near::Near as LazyNear;
use pool_model::book::new_book;
use pool_model::value::{Closures, Value};
use pool_workers::Worker;
use std::thread;
use std::thread::Threads;

/// A worker of a fixed pool, and one of a lazy pool.
type FixedWorker<'p> = Worker<Value, FixedNear<'p, Value, Closures, Closures>>;

type LazyWorker<'p> = Worker<Value, LazyNear<'p, Value, Closures, Closures>>;

/// Returns the call that made the item that a worker pulls, and then keeps.
fn pull_fixed(worker: &FixedWorker<'_>) -> Option<usize> {
    Some(worker.pull().ok()?.serial)
}

/// The same by a worker of a lazy pool.
fn pull_lazy(worker: &LazyWorker<'_>) -> Option<usize> {
    Some(worker.pull().ok()?.serial)
}

/// Pulls by a worker, which ends then.
fn end_fixed(worker: FixedWorker<'_>) -> Option<usize> {
    pull_fixed(&worker)
}

/// The same by a worker of a lazy pool.
fn end_lazy(worker: LazyWorker<'_>) -> Option<usize> {
    pull_lazy(&worker)
}

/// Sends each worker to a thread of its own, where it pulls and ends. Returns the calls that made
/// what they pulled.
fn pull_elsewhere<R: Threads>(
    rt: &R,
    fixed: FixedWorker<'_>,
    lazy: LazyWorker<'_>,
) -> (Option<usize>, Option<usize>) {
    thread::join(rt, || end_fixed(fixed), || end_lazy(lazy))
}

/// Pulls by a worker of each pool, here and then elsewhere, where they end.
fn pull_here_and_there<R: Threads>(
    rt: &R,
    fixed: &Fixed,
    lazy: &Lazy,
) -> [(Option<usize>, Option<usize>); 2] {
    let (one, other) = (Worker::new(fixed.near()), Worker::new(lazy.near()));
    let here = (pull_fixed(&one), pull_lazy(&other));
    [here, pull_elsewhere(rt, one, other)]
}

#[test]
fn a_worker_goes_to_a_thread_with_the_item_that_it_keeps(rt: HostRuntime) {
    let book = new_book(rt.alloc()).expect(&rt, "memory is left");
    let fixed = fixed_of(rt.alloc(), &book, 1).expect(&rt, "a pool is made");
    let lazy = lazy_of(rt.alloc(), &book, 1).expect(&rt, "a pool is made");
    let pulled = pull_here_and_there(&rt, &fixed, &lazy);
    assert_equal(&rt, pulled, [(Some(0), Some(1)), (Some(0), Some(1))]);
    assert_equal(&rt, (book.counts().resets, lazy.in_use()), (4, 0));
    assert_equal(&rt, fixed.pull().is_ok_and(|item| item.serial == 0), true);
    drop(fixed);
    drop(lazy);
    assert_equal(&rt, (book.counts().calls, book.counts().drops), (2, 2));
}

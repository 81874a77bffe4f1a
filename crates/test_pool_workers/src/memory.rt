//! Workers where memory is refused, and their calls, which take none.
use crate::assert_equal::assert_equal;
use crate::pools::{Fixed, Lazy, Linear, fixed_of, lazy_of, linear_of};
use pool_model::book::{Book, new_book};
use pool_model::value::Value;
use pool_parts::PullError;
use pool_workers::{Worker, WorkerPlace};
use std::alloc::Global;
use std::mem;
use std::process::Abort;
use std::sync::Arc;
use test_values::again;

/// A pool of each kind, and the book of their values.
#[derive(Drop)]
struct EachKind {
    book: Arc<Book>,
    fixed: Fixed,
    lazy: Lazy,
    linear: Linear,
}

fn open(alloc: Global) -> Result<EachKind, PullError> {
    let book = new_book(alloc)?;
    Ok(EachKind {
        fixed: fixed_of(alloc, &book, 2)?,
        lazy: lazy_of(alloc, &book, 2)?,
        linear: linear_of(alloc, &book, 2)?,
        book,
    })
}

/// Prints that no memory is asked for from here on.
fn get_ready<R: Abort + Print>(rt: &R) {
    let told = println!(rt; "from here on no memory is asked for");
    told.expect(rt, "a line can be printed");
}

/// Pulls two items at once by a worker, three times, and ends it.
fn use_worker<P: WorkerPlace<Value>>(rt: &impl Abort, worker: Worker<Value, P>) {
    for _ in 0..3 {
        let first = worker.pull().expect(rt, "an item is free");
        let second = worker.pull().expect(rt, "another item is free");
        let _item = first.item();
        assert_equal(rt, first.serial == second.serial, false);
    }
}

#[test]
fn calls_of_a_worker_ask_for_no_memory(rt: HostRuntime) {
    let Ok(pools) = open(rt.alloc()) else {
        return;
    };
    get_ready(&rt);
    use_worker(&rt, Worker::new(pools.fixed.near()));
    use_worker(&rt, Worker::new(pools.lazy.near()));
    use_worker(&rt, Worker::new(&pools.linear));
    assert_equal(&rt, pools.book.counts().resets, 18);
}

#[test]
fn calls_of_a_worker_with_room_ask_for_no_memory(rt: HostRuntime) {
    let Ok(pools) = open(rt.alloc()) else {
        return;
    };
    let Ok(in_fixed) = Worker::with_room(rt.alloc(), pools.fixed.near(), 2) else {
        return;
    };
    let Ok(in_linear) = Worker::with_room(rt.alloc(), &pools.linear, 40) else {
        return;
    };
    get_ready(&rt);
    use_worker(&rt, in_fixed);
    use_worker(&rt, in_linear);
    assert_equal(&rt, pools.book.counts().resets, 12);
}

/// A worker with room is made where its memory isn't refused, and else there is none.
#[test]
fn a_worker_with_room_is_made_where_memory_was_refused(rt: HostRuntime) {
    let pools = again!(open(rt.alloc())).expect(&rt, "one request alone is refused");
    let without_end = Worker::with_room(rt.alloc(), pools.fixed.near(), usize::MAX);
    assert_equal(&rt, without_end.err(), Some(PullError::Memory));
    let Ok(worker) = Worker::with_room(rt.alloc(), pools.fixed.near(), 2) else {
        return;
    };
    use_worker(&rt, worker);
    assert_equal(&rt, pools.book.counts().resets, 6);
}

/// Takes the items of the first page out for good.
fn take_first_page(rt: &impl Abort, pool: &Linear) {
    for _ in 0..32 {
        mem::forget(pool.pull().expect(rt, "an item is free"));
    }
}

/// Pulls an item and drops it. Returns whether one came.
fn is_pulled<P: WorkerPlace<Value>>(worker: &Worker<Value, P>) -> bool {
    worker.pull().is_ok()
}

/// A linear pool whose first page is full makes a page for its worker. If memory is refused, the
/// worker's pull is, and the worker keeps nothing. What it keeps comes without memory.
#[test]
fn a_worker_pulls_again_where_memory_was_refused(rt: HostRuntime) {
    let pools = again!(open(rt.alloc())).expect(&rt, "one request alone is refused");
    take_first_page(&rt, &pools.linear);
    let worker = Worker::new(&pools.linear);
    let comes = is_pulled(&worker) || is_pulled(&worker); // one request alone is refused
    assert_equal(&rt, comes, true);
    assert_equal(&rt, is_pulled(&worker), true); // it is kept
    assert_equal(&rt, pools.book.counts().resets, 2);
}

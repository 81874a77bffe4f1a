//! A worker of a lazy pool beside a pull that waits.
use crate::assert_equal::assert_equal;
use crate::pools::lazy_of;
use lazy_pools::near::Near;
use pool_model::book::new_book;
use pool_model::value::{Closures, Value};
use pool_parts::PullError;
use pool_workers::{Worker, WorkerReusable};
use std::cell::Cell;
use std::io;
use std::sync::Wait;
use std::time::{Clock, Duration};

/// An item of a worker of a lazy pool.
type Item<'w, 'p> = WorkerReusable<'w, Value, Near<'p, Value, Closures, Closures>>;

/// A clock by which an hour passes between two looks. At its second look, while a pull waits, an
/// item comes back to its worker.
#[derive(Drop)]
struct HourlyClock<'r, 'w, 'p, R: Wait + Clock> {
    rt: &'r R,
    looks: Cell<u64>,
    item: Cell<Option<Item<'w, 'p>>>,
}

impl<R: Wait + Clock> Wait for HourlyClock<'_, '_, '_, R> {}

impl<R: Wait + Clock> Clock for HourlyClock<'_, '_, '_, R> {
    fn monotonic(&self) -> io::Result<Duration> {
        let look = self.looks.get();
        self.looks.set(look.saturating_add(1));
        if look == 1 {
            drop(self.item.take());
        }
        Ok(Duration::from_secs(look.saturating_mul(3_600)))
    }

    fn since_1970(&self) -> io::Result<Duration> {
        self.rt.since_1970()
    }
}

/// The worker keeps what comes back, and returns it at its end.
#[test]
fn what_a_worker_keeps_serves_none_that_waits(rt: HostRuntime) {
    let book = new_book(rt.alloc()).expect(&rt, "memory is left");
    let pool = lazy_of(rt.alloc(), &book, 1).expect(&rt, "a pool is made");
    let worker = Worker::new(pool.near());
    let item = worker.pull().expect(&rt, "an item is free");
    let clock = HourlyClock {
        rt: &rt,
        looks: Cell::new(0),
        item: Cell::new(Some(item)),
    };
    let refusal = pool.pull_timeout(&clock, Duration::from_secs(1)).err();
    assert_equal(&rt, refusal, Some(PullError::Limit));
    assert_equal(&rt, (clock.looks.get(), pool.in_use()), (2, 1));
    drop(clock);
    drop(worker);
    assert_equal(&rt, (book.counts().resets, pool.in_use()), (1, 0));
}

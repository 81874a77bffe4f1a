//! Eight threads on a lazy pool: one of more items than they hold at a time, and small ones for
//! whose items they wait.
//!
//! The main thread watches those that wait. If they don't end in time, it frees them one by one, by
//! a pull and a return for each, and the report says so: a lost wake-up ends the run.
ghost use Rattle.std.specs.Prelude.{◌≤◌};

use crate::item::{Clears, Maker, Tallied};
use crate::pools::{
    Gives, ITEMS, THREADS, Used, eight_threads, end_of, joined, maker, pulled_to_the_limit,
    usual_work,
};
use crate::report::Report;
use crate::tally::Tally;
use crate::worker::{Turn, Worker};
use lockfree_object_pool::clean::AnyValue;
use lockfree_object_pool::{LazyObjectPool, LazyOwnedReusable, LazyReusable, PullError};
use std::alloc::Global;
use std::sync::atomic::AtomicU32;
use std::sync::atomic::Ordering::SeqCst;
use std::sync::{Arc, Wait};
use std::thread;
use std::thread::Threads;
use std::time::{Clock, Duration};

type Lazy = LazyObjectPool<Tallied, Maker, Clears, AnyValue>;

type LazyOwned = LazyOwnedReusable<Tallied, Maker, Clears, AnyValue>;

/// A thread discards some of what it borrows.
impl<R: Wait> Gives<LazyOwned, R> for Lazy {
    fn use_borrowed(pool: &Arc<Lazy>, _rt: &R, worker: &mut Worker<LazyOwned>, round: u32) {
        if round % 8 == 0 {
            discard(worker, pool.pull());
        } else {
            worker.use_borrowed(pool.pull());
        }
    }

    fn pull_one(pool: &Arc<Lazy>, _rt: &R) -> Result<LazyOwned, PullError> {
        pool.pull_owned()
    }
}

impl<R: Wait> Used<LazyOwned, R> for Lazy {
    fn work(pool: &Arc<Lazy>, rt: &R, worker: Worker<LazyOwned>, rounds: u32) -> Report {
        usual_work(rt, pool, worker, rounds)
    }
}

/// Uses an item and discards it.
fn discard(
    worker: &mut Worker<LazyOwned>,
    pulled: Result<LazyReusable<'_, Tallied, Maker, Clears, AnyValue>, PullError>,
) {
    if let Some(mut item) = worker.pulled(pulled) {
        worker.mark(&mut *item);
        item.discard();
    }
}

/// Eight threads on a lazy pool.
pub fn lazy<R: Threads + Wait + Copy + Send + 'static>(
    rt: &R,
    alloc: Global,
    rounds: u32,
) -> Result<Report, PullError> {
    let tally = Tally::new(alloc)?;
    let pool: Lazy = LazyObjectPool::new(alloc, maker(alloc, &tally)?, Clears, ITEMS)?;
    let pool = Arc::new(alloc, pool)?;
    let mut report = joined(rt, eight_threads(rt, alloc, &pool, rounds)?);
    let pulled = pulled_to_the_limit(rt, alloc, &mut report, &pool)?;
    let made = made_for_forgotten_and_five(alloc, &mut report, &pool, &tally)?;
    drop(pool);
    report.end_pulled(ITEMS + 5, pulled.saturating_add(made));
    end_of::<Tallied>(&mut report, &tally);
    Ok(report)
}

/// Discards each item that was not forgotten, and fills the pool up to those and five more. How
/// many were made then: five, if the pool counted right what was made and discarded.
fn made_for_forgotten_and_five(
    alloc: Global,
    report: &mut Report,
    pool: &Lazy,
    tally: &Tally,
) -> Result<usize, PullError> {
    let mut held = Vec::with_capacity(alloc, ITEMS)?;
    for _ in 0..ITEMS {
        if let Ok(item) = pool.pull() {
            held.push(item)?;
        }
    }
    for item in held {
        item.discard();
    }
    let before = tally.answered();
    let items = report.forgotten.saturating_add(5);
    if let Err(PullError::Init) = pool.fill(items) {
        report.count_refused();
        pool.fill(items)?;
    }
    Ok(tally.answered().wrapping_sub(before))
}

/// A lazy pool whose users wait, and how many rounds they have behind them.
#[derive(Drop)]
struct Awaited {
    pool: Arc<Lazy>,
    done: AtomicU32,
}

/// How many milliseconds the threads have to end. They take a few hundred.
const MOST_MILLISECONDS: u32 = 30_000;

/// How often a thread that waits too long is freed.
const MOST_FREED: u32 = 100_000_000;

impl Awaited {
    /// Does one round of a thread.
    fn turn<R: Wait + Clock>(
        self: &Arc<Awaited>,
        rt: &R,
        worker: &mut Worker<LazyOwned>,
        round: u32,
    ) {
        let pool = &self.pool;
        let shortly = Duration::from_micros(SHORTLY);
        match worker.next_turn() {
            Turn::UseBorrowed => Awaited::use_borrowed(self, rt, worker, round),
            Turn::UseOwned => worker.use_once(pool.pull_owned_wait(rt)),
            Turn::LetGo => worker.use_once(pool.pull_timeout(rt, shortly)),
            Turn::Receive => worker.use_once(pool.pull_owned_timeout(rt, shortly)),
        }
    }

    /// Sees whether so many rounds end in time. If they don't, it frees those that wait.
    fn watch<C: Clock>(&self, rt: &C, rounds: u32) -> bool {
        for _ in 0..MOST_MILLISECONDS {
            if self.done.load(SeqCst) == rounds {
                return true;
            }
            thread::sleep(rt, Duration::from_millis(1));
        }
        for _ in 0..MOST_FREED {
            if self.done.load(SeqCst) == rounds {
                break;
            }
            drop(self.pool.pull());
            thread::yield_now();
        }
        false
    }
}

/// How many microseconds the waits take of which some end with nothing.
const SHORTLY: u64 = 20;

/// A thread has an item of the pool at a time, for which it waits. Some waits are so short that it
/// gives up.
impl<R: Wait + Clock> Gives<LazyOwned, R> for Awaited {
    fn use_borrowed(awaited: &Arc<Awaited>, rt: &R, worker: &mut Worker<LazyOwned>, round: u32) {
        let pulled = awaited.pool.pull_wait(rt);
        if round % 8 == 0 {
            discard(worker, pulled);
        } else {
            worker.use_once(pulled);
        }
    }

    fn pull_one(awaited: &Arc<Awaited>, _rt: &R) -> Result<LazyOwned, PullError> {
        awaited.pool.pull_owned()
    }
}

impl<R: Wait + Clock> Used<LazyOwned, R> for Awaited {
    fn work(awaited: &Arc<Awaited>, rt: &R, mut worker: Worker<LazyOwned>, rounds: u32) -> Report {
        for round in 0..rounds {
            awaited.turn(rt, &mut worker, round);
            awaited.done.fetch_add(1, SeqCst);
        }
        // those that wait are woken by this alone
        discard(&mut worker, awaited.pool.pull_wait(rt));
        awaited.done.fetch_add(1, SeqCst);
        worker.end()
    }
}

/// Eight threads that wait for the items of a lazy pool: of 1 item, or of fewer than there are
/// threads.
pub fn waited_for<R: Threads + Wait + Clock + Copy + Send + 'static>(
    rt: &R,
    alloc: Global,
    items: usize,
    rounds: u32,
) -> Result<Report, PullError>
    requires { 1 ≤ items }
{
    let tally = Tally::new(alloc)?;
    let pool: Lazy = LazyObjectPool::new(alloc, maker(alloc, &tally)?, Clears, items)?;
    let awaited = Awaited {
        pool: Arc::new(alloc, pool)?,
        done: AtomicU32::new(0),
    };
    let awaited = Arc::new(alloc, awaited)?;
    let threads = eight_threads(rt, alloc, &awaited, rounds)?;
    let in_time = awaited.watch(rt, rounds.wrapping_add(1).wrapping_mul(THREADS));
    let mut report = joined(rt, threads);
    report.end_late(!in_time);
    let pulled = pulled_to_the_limit(rt, alloc, &mut report, &awaited)?;
    drop(awaited);
    report.end_pulled(items, pulled);
    end_of::<Tallied>(&mut report, &tally);
    Ok(report)
}

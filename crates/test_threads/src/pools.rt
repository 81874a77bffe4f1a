//! Eight threads on one pool, and what is left of its items behind them. `lazy` and
//! `stacks` have those on other kinds of pool.
use crate::item::{Clears, Item, Maker};
use crate::report::Report;
use crate::tally::Tally;
use crate::worker::{Post, Turn, Worker};
use crossbeam_channel::unbounded;
use lockfree_object_pool::clean::AnyValue;
use lockfree_object_pool::page::PAGE_ITEMS;
use lockfree_object_pool::{
    FixedObjectPool, FixedOwnedReusable, LinearObjectPool, LinearOwnedReusable, PullError,
};
use std::alloc::Global;
use std::ops::DerefMut;
use std::sync::{Arc, Wait};
use std::thread;
use std::thread::{JoinHandle, Threads};

/// How many threads there are.
pub(crate) const THREADS: u32 = 8;

/// How many pages a linear pool may have: fewer items than the threads ask for.
const PAGES: usize = 2;

/// How many items a fixed or lazy pool has: fewer too, in two words.
pub(crate) const ITEMS: usize = 40;

/// How many items a linear pool has at most.
const LINEAR_ITEMS: usize = PAGES * PAGE_ITEMS;

/// How often a pool is asked behind the threads: often enough for all its items, and for a page
/// that `init` refuses.
const MOST_PULLS: usize = 2 * LINEAR_ITEMS;

type Linear<T> = LinearObjectPool<T, Maker, Clears, AnyValue>;

type LinearOwned<T> = LinearOwnedReusable<T, Maker, Clears, AnyValue>;

type Fixed<T> = FixedObjectPool<T, Maker, Clears, AnyValue>;

type FixedOwned<T> = FixedOwnedReusable<T, Maker, Clears, AnyValue>;

/// What makes the items of a pool.
pub(crate) fn maker(alloc: Global, tally: &Arc<Tally>) -> Result<Maker, PullError> {
    let tally = Arc::try_clone(tally)?;
    Ok(Maker { alloc, tally })
}

/// All items that a pool gives until it is at its limit, and which are held meanwhile. A pull that
/// `init` refuses is asked again.
pub(crate) fn pulled_to_the_limit<A: Drop, P: Gives<A, R>, R>(
    rt: &R,
    alloc: Global,
    report: &mut Report,
    pool: &Arc<P>,
) -> Result<usize, PullError> {
    let mut held = Vec::with_capacity(alloc, MOST_PULLS)?;
    for _ in 0..MOST_PULLS {
        match P::pull_one(pool, rt) {
            Ok(item) => held.push(item)?,
            Err(PullError::Init) => report.count_refused(),
            Err(PullError::Limit) => return Ok(held.len()),
            Err(cause) => return Err(cause),
        }
    }
    Ok(MOST_PULLS)
}

/// Ends what the threads saw. An item that lives on behind them wasn't dropped, and but for the
/// forgotten ones each has to be.
pub(crate) fn end_of<T: Item>(report: &mut Report, tally: &Tally) {
    report.end_refused(tally.refused());
    if T::COUNTS_DROPS {
        report.end_living(tally.living());
    }
}

/// A pool that gives items, or what has one.
pub(crate) trait Gives<A: Drop, R> {
    /// Uses an item that is pulled under a borrow.
    fn use_borrowed(pool: &Arc<Self>, rt: &R, worker: &mut Worker<A>, round: u32);

    /// Pulls an owned item.
    fn pull_one(pool: &Arc<Self>, rt: &R) -> Result<A, PullError>;
}

/// Such a pool that threads use.
pub(crate) trait Used<A: Drop, R>: Gives<A, R> {
    /// Does on the pool what one thread does, and returns what it saw.
    fn work(pool: &Arc<Self>, rt: &R, worker: Worker<A>, rounds: u32) -> Report;
}

/// Does what a thread does that waits for no item.
pub(crate) fn usual_work<T: Item, A: DerefMut<Target = T> + Drop, P: Gives<A, R>, R: Wait>(
    rt: &R,
    pool: &Arc<P>,
    mut worker: Worker<A>,
    rounds: u32,
) -> Report {
    for round in 0..rounds {
        match worker.next_turn() {
            Turn::UseBorrowed => P::use_borrowed(pool, rt, &mut worker, round),
            Turn::UseOwned => worker.use_owned(P::pull_one(pool, rt)),
            Turn::LetGo => worker.let_go(rt),
            Turn::Receive => worker.receive(rt),
        }
    }
    worker.end()
}

/// Starts a thread on which a worker uses the pool.
fn start<
    A: Drop + Send + 'static,
    P: Used<A, R> + Drop + Send + Sync + 'static,
    R: Threads + Copy + Send + 'static,
>(rt: &R, pool: &Arc<P>, worker: Worker<A>, rounds: u32) -> Result<JoinHandle<Report>, PullError> {
    let (pool, there) = (Arc::try_clone(pool)?, *rt);
    match thread::spawn(rt, move || P::work(&pool, &there, worker, rounds)) {
        Ok(thread) => Ok(thread),
        Err(_) => Err(PullError::Memory),
    }
}

/// Starts eight workers on a pool, each on a thread of its own.
pub(crate) fn eight_threads<
    A: Drop + Send + 'static,
    P: Used<A, R> + Drop + Send + Sync + 'static,
    R: Threads + Copy + Send + 'static,
>(rt: &R, alloc: Global, pool: &Arc<P>, rounds: u32) -> Result<Vec<JoinHandle<Report>>, PullError> {
    let (sender, receiver) = unbounded(alloc)?;
    let mut threads = Vec::with_capacity(alloc, THREADS as usize)?;
    for number in 0..THREADS {
        let (sender, receiver) = (sender.clone()?, receiver.clone()?);
        let worker = Worker::new(alloc, number + 1, Post { sender, receiver });
        threads.push(start(rt, pool, worker, rounds)?)?;
    }
    Ok(threads)
}

/// What the threads saw, behind the last of them.
pub(crate) fn joined<R: Threads>(rt: &R, threads: Vec<JoinHandle<Report>>) -> Report {
    let mut report = Report::new();
    for thread in threads {
        report.add(&thread.join(rt));
    }
    report
}

/// Runs eight threads on a pool of so many items, and asks it for all of them behind the threads.
fn used_to_the_limit<
    T: Item,
    A: Drop + Send + 'static,
    P: Used<A, R> + Drop + Send + Sync + 'static,
    R: Threads + Copy + Send + 'static,
>(
    rt: &R,
    alloc: Global,
    pool: P,
    tally: &Tally,
    items: usize,
    rounds: u32,
) -> Result<Report, PullError> {
    let pool = Arc::new(alloc, pool)?;
    let mut report = joined(rt, eight_threads(rt, alloc, &pool, rounds)?);
    let pulled = pulled_to_the_limit(rt, alloc, &mut report, &pool)?;
    drop(pool);
    report.end_pulled(items, pulled);
    end_of::<T>(&mut report, tally);
    Ok(report)
}

impl<T: Item, R: Wait> Gives<LinearOwned<T>, R> for Linear<T> {
    fn use_borrowed(
        pool: &Arc<Linear<T>>,
        _rt: &R,
        worker: &mut Worker<LinearOwned<T>>,
        _round: u32,
    ) {
        worker.use_borrowed(pool.pull());
    }

    fn pull_one(pool: &Arc<Linear<T>>, _rt: &R) -> Result<LinearOwned<T>, PullError> {
        pool.pull_owned()
    }
}

impl<T: Item, R: Wait> Used<LinearOwned<T>, R> for Linear<T> {
    fn work(pool: &Arc<Linear<T>>, rt: &R, worker: Worker<LinearOwned<T>>, rounds: u32) -> Report {
        usual_work(rt, pool, worker, rounds)
    }
}

/// Runs eight threads on a linear pool.
pub fn linear<T: Item + Send + 'static, R: Threads + Wait + Copy + Send + 'static>(
    rt: &R,
    alloc: Global,
    rounds: u32,
) -> Result<Report, PullError> {
    let tally = Tally::new(alloc)?;
    let maker = maker(alloc, &tally)?;
    let pool: Linear<T> = LinearObjectPool::with_limit(alloc, maker, Clears, PAGES)?;
    used_to_the_limit::<T, _, _, R>(rt, alloc, pool, &tally, LINEAR_ITEMS, rounds)
}

/// What is borrowed is near a page that changes from round to round.
impl<T: Item, R: Wait> Gives<FixedOwned<T>, R> for Fixed<T> {
    fn use_borrowed(pool: &Arc<Fixed<T>>, _rt: &R, worker: &mut Worker<FixedOwned<T>>, round: u32) {
        worker.use_borrowed(pool.pull_near(round as usize));
    }

    fn pull_one(pool: &Arc<Fixed<T>>, _rt: &R) -> Result<FixedOwned<T>, PullError> {
        pool.pull_owned()
    }
}

impl<T: Item, R: Wait> Used<FixedOwned<T>, R> for Fixed<T> {
    fn work(pool: &Arc<Fixed<T>>, rt: &R, worker: Worker<FixedOwned<T>>, rounds: u32) -> Report {
        usual_work(rt, pool, worker, rounds)
    }
}

/// Runs eight threads on a fixed pool.
pub fn fixed<T: Item + Send + 'static, R: Threads + Wait + Copy + Send + 'static>(
    rt: &R,
    alloc: Global,
    rounds: u32,
) -> Result<Report, PullError> {
    let tally = Tally::new(alloc)?;
    let maker = maker(alloc, &tally)?;
    let pool: Fixed<T> = FixedObjectPool::new(alloc, maker, Clears, ITEMS)?;
    used_to_the_limit::<T, _, _, R>(rt, alloc, pool, &tally, ITEMS, rounds)
}

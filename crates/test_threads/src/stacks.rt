//! Eight threads on a stack pool, under a spin lock.
use crate::item::{Clears, Item, Maker};
use crate::pools::{Gives, Used, eight_threads, end_of, joined, maker, usual_work};
use crate::report::Report;
use crate::tally::Tally;
use crate::worker::Worker;
use lockfree_object_pool::clean::AnyValue;
use lockfree_object_pool::free_list::FreeList;
use lockfree_object_pool::made_or_reset::MadeOrReset;
use lockfree_object_pool::stack_object_pool::StackObjectPool;
use lockfree_object_pool::stack_reusable::StackReusable;
use lockfree_object_pool::{PullError, SpinLockObjectPool};
use std::alloc::Global;
use std::sync::{Arc, Wait};
use std::thread::Threads;

/// What a stack pool keeps.
type StackedItems = MadeOrReset<Maker, Clears, AnyValue>;

type SpinLocked<T> = SpinLockObjectPool<T, Maker, Clears, AnyValue>;

type Stack<T, F> = StackObjectPool<T, Maker, Clears, AnyValue, F>;

type StackOwned<T, F, W> = StackReusable<T, Arc<Stack<T, F>>, W>;

/// What is kept is counted now and then, and is still there behind the count.
impl<T: Item, F: FreeList<T, StackedItems>, R: Wait + Copy> Gives<StackOwned<T, F, R>, R>
    for Stack<T, F> {
    fn use_borrowed(
        pool: &Arc<Stack<T, F>>,
        rt: &R,
        worker: &mut Worker<StackOwned<T, F, R>>,
        round: u32,
    ) {
        if round % 4 == 0 {
            let _kept = pool.kept(rt);
        }
        worker.use_borrowed(pool.pull(rt));
    }

    fn pull_one(pool: &Arc<Stack<T, F>>, rt: &R) -> Result<StackOwned<T, F, R>, PullError> {
        pool.pull_owned(rt)
    }
}

impl<T: Item, F: FreeList<T, StackedItems>, R: Wait + Copy> Used<StackOwned<T, F, R>, R>
    for Stack<T, F> {
    fn work(
        pool: &Arc<Stack<T, F>>,
        rt: &R,
        worker: Worker<StackOwned<T, F, R>>,
        rounds: u32,
    ) -> Report {
        usual_work(rt, pool, worker, rounds)
    }
}

/// A pool that tells how many items it keeps.
trait Keeps<R> {
    fn kept(&self, rt: &R) -> usize;
}

impl<T: Item, F: FreeList<T, StackedItems>, R: Wait> Keeps<R> for Stack<T, F> {
    fn kept(&self, rt: &R) -> usize {
        StackObjectPool::kept(self, rt)
    }
}

/// How many items a pool keeps, which are pulled and held together. A pull that made one would
/// count as answered.
fn pulled_of_kept<A: Drop, P: Gives<A, R> + Keeps<R>, R>(
    rt: &R,
    alloc: Global,
    pool: &Arc<P>,
) -> Result<usize, PullError> {
    let kept = P::kept(pool, rt);
    let mut held = Vec::with_capacity(alloc, kept)?;
    for _ in 0..kept {
        held.push(P::pull_one(pool, rt)?)?;
    }
    Ok(held.len())
}

/// Runs eight threads on a pool, and pulls behind them what it keeps.
fn used_as_kept<
    T: Item,
    A: Drop + Send + 'static,
    P: Used<A, R> + Keeps<R> + Drop + Send + Sync + 'static,
    R: Threads + Copy + Send + 'static,
>(rt: &R, alloc: Global, pool: P, tally: &Tally, rounds: u32) -> Result<Report, PullError> {
    let pool = Arc::new(alloc, pool)?;
    let mut report = joined(rt, eight_threads(rt, alloc, &pool, rounds)?);
    let pulled = pulled_of_kept(rt, alloc, &pool)?;
    drop(pool);
    report.end_pulled(tally.answered(), pulled);
    end_of::<T>(&mut report, tally);
    Ok(report)
}

/// Runs eight threads on a stack pool, whatever its list. That its items may be sent is found here,
/// and not at the type of one pool.
fn used_over_list<
    T: Item + Send + 'static,
    F: FreeList<T, StackedItems> + Send + Sync + 'static,
    R: Threads + Wait + Copy + Send + 'static,
>(
    rt: &R,
    alloc: Global,
    pool: Stack<T, F>,
    tally: &Tally,
    rounds: u32,
) -> Result<Report, PullError> {
    used_as_kept::<T, _, _, R>(rt, alloc, pool, tally, rounds)
}

/// Eight threads on a spin lock pool.
pub fn spin_lock<T: Item + Send + 'static, R: Threads + Wait + Copy + Send + 'static>(
    rt: &R,
    alloc: Global,
    rounds: u32,
) -> Result<Report, PullError> {
    let tally = Tally::new(alloc)?;
    let maker = maker(alloc, &tally)?;
    let pool: SpinLocked<T> = SpinLockObjectPool::new(alloc, maker, Clears)?;
    used_over_list(rt, alloc, pool, &tally, rounds)
}

//! A task is done on a new pool, and its turns are timed.
ghost use Rattle.std.specs.Prelude.{◌≤◌};

use super::pulls::{Fixed, Lazy, Linear, Near, Pulls, Stack, Stacked, Waiting, WaitingOwner, Zero};
use super::task::{Kind, Task, Work};
use super::turns::{be_refused, hold, pull_and_drop, total};
use super::workers::HasWorkers;
use crate::shared::shared;
use anyhow::Result;
use lockfree_object_pool::clean::AnyValue;
use lockfree_object_pool::free_list::FreeList;
use lockfree_object_pool::{
    FixedObjectPool, LazyObjectPool, LinearObjectPool, MutexObjectPool, PullError,
    SpinLockObjectPool,
};
use std::alloc::Global;
use std::rt::Clock;
use std::sync::{Arc, Wait};
use std::thread;
use std::thread::Threads;
use std::time::{Duration, Instant};

/// How many items a fixed pool has, but for one whose items are all held.
const FIXED_ITEMS: usize = 65_536;

/// What a task gave.
#[derive(Clone, Copy)]
pub struct Measured {
    /// The sum of what the items were, by which it is seen that the turns were done.
    pub sum: u64,
    /// How long the turns took.
    pub time: Duration,
}

/// Does the task on a new pool.
///
/// # Errors
///
/// If a pull is refused that the task doesn't expect, or memory, or a thread.
pub fn measure<R: Clock + Threads + Wait + AllocGlobal + Copy + Send + Sync>(
    rt: &R,
    task: Task,
) -> Result<Measured> {
    if let Work::Worker { threads } = task.work {
        return measure_workers(rt, task, threads);
    }
    match task.kind {
        Kind::Linear => measure_linear(rt, task),
        Kind::SpinLock => {
            let pool = new_spin_lock(rt.alloc())?;
            measure_stack(rt, task, &pool)
        }
        Kind::Mutex => {
            let pool = new_mutex(rt.alloc())?;
            measure_stack(rt, task, &pool)
        }
        Kind::Fixed => measure_fixed(rt, task),
        Kind::FixedNear => measure_fixed_near(rt, task),
        Kind::Lazy => measure_lazy(rt, task),
        Kind::LazyWait => measure_lazy_waiting(rt, task),
    }
}

/// Does the task by workers of a new pool.
fn measure_workers<R: Clock + Threads + AllocGlobal + Sync>(
    rt: &R,
    task: Task,
    threads: usize,
) -> Result<Measured> {
    match task.kind {
        Kind::Fixed => measure_work(rt, &*new_fixed(rt.alloc(), task)?, threads, task.turns),
        Kind::Lazy => measure_work(rt, &*new_lazy(rt.alloc(), task)?, threads, task.turns),
        _ => measure_work(rt, &*new_linear(rt.alloc())?, threads, task.turns),
    }
}

/// How many items a fixed or a lazy pool has for a task: so many as threads wait for, or at least
/// so many as are held, and more than a few pages.
fn items_of(task: Task) -> usize
    ensures { 1 ≤ result }
{
    match task.work {
        Work::Hold => (task.turns as usize).max(FIXED_ITEMS),
        Work::Wait { threads: _, items } => items.max(1),
        _ => FIXED_ITEMS,
    }
}

fn measure_linear<R: Clock + Threads + AllocGlobal + Sync>(rt: &R, task: Task) -> Result<Measured> {
    let pool = new_linear(rt.alloc())?;
    measure_pulls(rt, task, &&*pool, &pool)
}

fn new_linear(alloc: Global) -> Result<Arc<Linear>, PullError> {
    shared(
        alloc,
        LinearObjectPool::new(alloc, Zero::new(0), Zero::new(0))?,
    )
}

fn measure_stack<
    R: Clock + Threads + Wait + AllocGlobal + Copy + Send + Sync,
    F: FreeList<u64, Stacked> + Send + Sync,
>(rt: &R, task: Task, pool: &Arc<Stack<F>>) -> Result<Measured> {
    measure_pulls(rt, task, &&**pool, pool)
}

fn new_spin_lock(
    alloc: Global,
) -> Result<Arc<SpinLockObjectPool<u64, Zero, Zero, AnyValue>>, PullError> {
    shared(
        alloc,
        SpinLockObjectPool::new(alloc, Zero::new(0), Zero::new(0))?,
    )
}

fn new_mutex(alloc: Global) -> Result<Arc<MutexObjectPool<u64, Zero, Zero, AnyValue>>, PullError> {
    shared(
        alloc,
        MutexObjectPool::new(alloc, Zero::new(0), Zero::new(0)),
    )
}

fn measure_fixed<R: Clock + Threads + AllocGlobal + Sync>(rt: &R, task: Task) -> Result<Measured> {
    let pool = new_fixed(rt.alloc(), task)?;
    measure_pulls(rt, task, &&*pool, &pool)
}

/// Each thread begins at a page of its own, whose word shares no cache line with another thread's.
fn measure_fixed_near<R: Clock + Threads + AllocGlobal + Sync>(
    rt: &R,
    task: Task,
) -> Result<Measured> {
    let pool = new_fixed(rt.alloc(), task)?;
    measure_pulls(rt, task, &Near { pool: &pool }, &pool)
}

fn new_fixed(alloc: Global, task: Task) -> Result<Arc<Fixed>, PullError> {
    let items = items_of(task);
    shared(
        alloc,
        FixedObjectPool::new(alloc, Zero::new(0), Zero::new(0), items)?,
    )
}

fn measure_lazy<R: Clock + Threads + AllocGlobal + Sync>(rt: &R, task: Task) -> Result<Measured> {
    let pool = new_lazy(rt.alloc(), task)?;
    measure_pulls(rt, task, &&*pool, &pool)
}

/// The lazy pool by pulls that wait.
fn measure_lazy_waiting<R: Clock + Threads + Wait + AllocGlobal + Sync>(
    rt: &R,
    task: Task,
) -> Result<Measured> {
    let pool = new_lazy(rt.alloc(), task)?;
    measure_pulls(
        rt,
        task,
        &Waiting { pool: &pool },
        &WaitingOwner { pool: &pool },
    )
}

fn new_lazy(alloc: Global, task: Task) -> Result<Arc<Lazy>, PullError> {
    let items = items_of(task);
    shared(
        alloc,
        LazyObjectPool::new(alloc, Zero::new(0), Zero::new(0), items)?,
    )
}

/// Does the task by the two ways to pull. Threads share the first of them.
fn measure_pulls<R: Clock + Threads + AllocGlobal + Sync, P: Pulls<R> + Sync, Q: Pulls<R>>(
    rt: &R,
    task: Task,
    pool: &P,
    owner: &Q,
) -> Result<Measured> {
    match task.work {
        Work::Pull { held } => measure_turns(rt, pool, held, task.turns),
        Work::PullOwned { held } => measure_turns(rt, owner, held, task.turns),
        Work::Share { threads, held } => {
            let _held = hold(rt, rt.alloc(), pool, held)?;
            measure_share(rt, pool, threads, task.turns)
        }
        Work::Wait { threads, items: _ } | Work::Worker { threads } => {
            measure_share(rt, pool, threads, task.turns)
        }
        Work::Refuse => measure_refusals(rt, pool, task.turns),
        Work::Hold => measure_hold(rt, pool, task.turns as usize),
    }
}

/// So many items are pulled and held.
fn measure_hold<R: Clock + AllocGlobal, P: Pulls<R>>(
    rt: &R,
    pool: &P,
    count: usize,
) -> Result<Measured> {
    let start = Instant::now(rt)?;
    let items = hold(rt, rt.alloc(), pool, count)?;
    let time = start.elapsed(rt)?;
    Ok(Measured {
        sum: items.len() as u64,
        time,
    })
}

/// Pulls that are refused, while each item of the pool is held.
fn measure_refusals<R: Clock + AllocGlobal, P: Pulls<R>>(
    rt: &R,
    pool: &P,
    turns: u64,
) -> Result<Measured> {
    let _held = hold(rt, rt.alloc(), pool, FIXED_ITEMS)?;
    let start = Instant::now(rt)?;
    let sum = be_refused(rt, pool, turns);
    Ok(Measured {
        sum,
        time: start.elapsed(rt)?,
    })
}

/// The turns of so many threads, beside each other.
fn measure_share<R: Clock + Threads + AllocGlobal + Sync, P: Pulls<R> + Sync>(
    rt: &R,
    pool: &P,
    threads: usize,
    turns: u64,
) -> Result<Measured> {
    let one_thread = |thread: usize| pull_and_drop(rt, pool, thread, turns);
    let start = Instant::now(rt)?;
    let sums = thread::map_indices(rt, rt.alloc(), threads, &one_thread)?;
    let time = start.elapsed(rt)?;
    Ok(Measured {
        sum: total(sums)?,
        time,
    })
}

/// The turns of so many workers, beside each other.
fn measure_work<R: Clock + Threads + AllocGlobal + Sync, P: HasWorkers + Sync>(
    rt: &R,
    pool: &P,
    threads: usize,
    turns: u64,
) -> Result<Measured> {
    let one_worker = |_: usize| pool.work(turns);
    let start = Instant::now(rt)?;
    let sums = thread::map_indices(rt, rt.alloc(), threads, &one_worker)?;
    let time = start.elapsed(rt)?;
    Ok(Measured {
        sum: total(sums)?,
        time,
    })
}

/// One thread's turns, while so many other items are held.
fn measure_turns<R: Clock + AllocGlobal, P: Pulls<R>>(
    rt: &R,
    pool: &P,
    held: usize,
    turns: u64,
) -> Result<Measured> {
    let _held = hold(rt, rt.alloc(), pool, held)?;
    let start = Instant::now(rt)?;
    let sum = pull_and_drop(rt, pool, 0, turns)?;
    Ok(Measured {
        sum,
        time: start.elapsed(rt)?,
    })
}

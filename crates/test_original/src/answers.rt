//! Calls of one thread, read from standard input and done on a pool, so that the answers of another
//! library to the same calls can be compared.

pub mod arguments;
mod call;
mod held;
mod item;
mod pools;
mod replay;

use crate::shared::shared;
use anyhow::Result;
use arguments::{Arguments, Kind};
use item::{Item, Numbered, Restore, Totals};
use lockfree_object_pool::clean::AnyValue;
use lockfree_object_pool::closures::{Init, Reset};
use lockfree_object_pool::free_list::FreeList;
use lockfree_object_pool::{
    LinearObjectPool, MutexObjectPool, NoneObjectPool, PullError, SpinLockObjectPool,
};
use pools::{Stacked, StackedItems};
use replay::replay;
use std::alloc::Global;
use std::sync::{Arc, Wait};
use test_values::tally::{Tally, new_tally};

/// Answers the calls of standard input, and prints the counts behind the pool's end.
///
/// # Errors
///
/// If a line is no call, or memory is refused.
pub fn answer_calls<R: Input + Print + AllocGlobal + Wait + Copy>(
    rt: &R,
    arguments: Arguments,
) -> Result<()> {
    let tally = new_tally(rt.alloc())?;
    replay_on(rt, &tally, arguments)?;
    println!(rt; "end: {}", Totals { tally: &tally })?;
    Ok(())
}

/// Does the calls on a new pool, which ends with the last of them, unless an item that owns it was
/// forgotten.
fn replay_on<R: Input + Print + AllocGlobal + Wait + Copy>(
    rt: &R,
    tally: &Arc<Tally>,
    arguments: Arguments,
) -> Result<()> {
    let Arguments { kind, clears } = arguments;
    let init = Numbered {
        tally: Arc::try_clone(tally)?,
    };
    let reset = Restore {
        tally: Arc::try_clone(tally)?,
        clears,
    };
    match kind {
        Kind::Linear => replay_on_linear(rt, tally, init, reset),
        Kind::Mutex => {
            let pool = new_mutex(rt.alloc(), init, reset)?;
            replay_on_stack(rt, tally, &pool)
        }
        Kind::SpinLock => {
            let pool = new_spin_lock(rt.alloc(), init, reset)?;
            replay_on_stack(rt, tally, &pool)
        }
        Kind::None => replay_on_none(rt, tally, init),
    }
}

fn replay_on_linear<
    R: Input + Print + AllocGlobal,
    I: Init<Item, AnyValue>,
    S: Reset<Item, AnyValue>,
>(rt: &R, tally: &Arc<Tally>, init: I, reset: S) -> Result<()> {
    let pool = new_linear(rt.alloc(), init, reset)?;
    replay(rt, tally, &&*pool, &pool)
}

fn new_linear<I: Init<Item, AnyValue>, S: Reset<Item, AnyValue>>(
    alloc: Global,
    init: I,
    reset: S,
) -> Result<Arc<LinearObjectPool<Item, I, S, AnyValue>>, PullError> {
    shared(alloc, LinearObjectPool::new(alloc, init, reset)?)
}

fn replay_on_stack<R: Input + Print + AllocGlobal + Wait + Copy, F: FreeList<Item, StackedItems>>(
    rt: &R,
    tally: &Arc<Tally>,
    pool: &Arc<Stacked<F>>,
) -> Result<()> {
    replay(rt, tally, &&**pool, pool)
}

fn new_mutex(
    alloc: Global,
    init: Numbered,
    reset: Restore,
) -> Result<Arc<MutexObjectPool<Item, Numbered, Restore, AnyValue>>, PullError> {
    shared(alloc, MutexObjectPool::new(alloc, init, reset))
}

fn new_spin_lock(
    alloc: Global,
    init: Numbered,
    reset: Restore,
) -> Result<Arc<SpinLockObjectPool<Item, Numbered, Restore, AnyValue>>, PullError> {
    shared(alloc, SpinLockObjectPool::new(alloc, init, reset)?)
}

fn replay_on_none<R: Input + Print + AllocGlobal>(
    rt: &R,
    tally: &Arc<Tally>,
    init: Numbered,
) -> Result<()> {
    let pool = NoneObjectPool::new(|| init.make());
    let pool = Arc::new(rt.alloc(), pool)?;
    replay(rt, tally, &&*pool, &pool)
}

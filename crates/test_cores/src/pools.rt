//! Linear, fixed and stack pools, each beside its core.
use crate::answer::{Call, Stopped};
use crate::comparison::{Ended, compare_ends, compare_openings, play};
use crate::dice::Dice;
use crate::figures::Figures;
use crate::maker::{Maker, Traces, closures};
use crate::session::Session;
use crate::side::{Ask, Held, OnCore, Side, attached, number_of};
use crate::tallies::Tallies;
use crate::tally::SideTally;
use crate::value::Value;
use lockfree_object_pool::clean::{AnyValue, Clean};
use lockfree_object_pool::closures::{Init, Reset};
use lockfree_object_pool::free_list::FreeList;
use lockfree_object_pool::made_or_reset::MadeOrReset;
use lockfree_object_pool::stack_object_pool::StackObjectPool;
use lockfree_object_pool::stack_reusable::StackReusable;
use lockfree_object_pool::{
    FixedObjectPool, FixedOwnedReusable, FixedReusable, LinearObjectPool, LinearOwnedReusable,
    LinearReusable, MutexObjectPool, PullError, SpinLockObjectPool,
};
use object_pool_cores::sequential::{LinearCore, StackCore};
use std::alloc::Global;
use std::sync::{Arc, Wait};

type Linear<T> = LinearObjectPool<T, Maker, Traces, AnyValue>;

type Fixed<T> = FixedObjectPool<T, Maker, Traces, AnyValue>;

/// What is so of each kept value.
type Kept = MadeOrReset<Maker, Traces, AnyValue>;

type Stack<T, F> = StackObjectPool<T, Maker, Traces, AnyValue, F>;

/// Refuses, now and then, one of the calls of `init` for the first page.
pub fn refuse_opening(tallies: &Tallies, session: Session) {
    let mut dice = Dice::new(session.seed.wrapping_add(2), session.number);
    if session.refuses && dice.one_in(4) {
        tallies.refuse_after(dice.below(40));
    }
}

/// Does the session's calls on a linear pool. One thread's pulls find the least free number, as the
/// core's do.
///
/// # Errors
///
/// `Stopped` if the two sides differ, or memory is refused.
pub fn compare_linear<T: Value>(alloc: Global, session: Session) -> Result<Figures, Stopped> {
    let tallies = Tallies::new(alloc)?;
    refuse_opening(&tallies, session);
    let pool = new_linear::<T>(alloc, &tallies.running, session.limit);
    let core = new_core::<T>(alloc, &tallies.core, session.limit);
    let Some((pool, core)) = compare_openings(&tallies, pool, core)? else {
        return Ok(Figures::default());
    };
    let pool = Arc::new(alloc, pool)?;
    let ended = played_linear(alloc, &pool, core, session, tallies)?;
    drop(pool);
    compare_ends(ended)
}

/// What is left behind the session's calls.
fn played_linear<T: Value>(
    alloc: Global,
    pool: &Arc<Linear<T>>,
    core: OnCore<T, Core<T>>,
    session: Session,
    tallies: Tallies,
) -> Result<Ended<OnCore<T, Core<T>>>, Stopped> {
    play(alloc, OnLinear { pool }, core, session, tallies, 0)
}

fn new_linear<T: Value>(
    alloc: Global,
    tally: &Arc<SideTally>,
    limit: Option<usize>,
) -> Result<Linear<T>, PullError> {
    let (init, reset) = closures(tally)?;
    match limit {
        Some(pages) if pages > 0 => LinearObjectPool::with_limit(alloc, init, reset, pages),
        _ => LinearObjectPool::new(alloc, init, reset),
    }
}

type Core<T> = LinearCore<T, Maker, Traces, AnyValue>;

fn new_core<T: Value>(
    alloc: Global,
    tally: &Arc<SideTally>,
    limit: Option<usize>,
) -> Result<OnCore<T, Core<T>>, PullError> {
    let (init, reset) = closures(tally)?;
    let core = match limit {
        Some(pages) if pages > 0 => LinearCore::with_limit(alloc, init, reset, pages),
        _ => LinearCore::new(alloc, init, reset),
    };
    Ok(OnCore::new(core?))
}

/// A linear pool.
#[derive(Drop)]
pub struct OnLinear<'p, T, I: Init<T, K>, S: Reset<T, K>, K: Clean<T>> {
    pub pool: &'p Arc<LinearObjectPool<T, I, S, K>>,
}

impl<'p, T: Value, I: Init<T, K>, S: Reset<T, K>, K: Clean<T>> Side for OnLinear<'p, T, I, S, K> {
    type Item = Held<LinearReusable<'p, T, I, S, K>, LinearOwnedReusable<T, I, S, K>>;

    fn give(&mut self, ask: Ask, _tally: &Arc<SideTally>) -> Result<Self::Item, PullError> {
        if ask.call.owns() {
            let item = self.pool.pull_owned()?;
            let number = number_of(item.page_number(), item.page_id());
            return Ok(Held::Owned(item, Some(number)));
        }
        let item = self.pool.pull()?;
        let number = number_of(item.page_number(), item.page_id());
        Ok(Held::Borrowed(item, Some(number)))
    }
}

/// How many pages a fixed pool has at most.
const MOST_PAGES: usize = 300;

/// Does the session's calls on a fixed pool. A pull near the page of the core's item finds that
/// number, the least free one. At first each item is pulled: the pool has made them all, and the core
/// makes them page by page.
///
/// # Errors
///
/// `Stopped` if the two sides differ, or memory is refused.
pub fn compare_fixed<T: Value>(alloc: Global, session: Session) -> Result<Figures, Stopped> {
    let tallies = Tallies::new(alloc)?;
    let pages = session.limit.unwrap_or(40).clamp(1, MOST_PAGES);
    let (init, reset) = closures(&tallies.running)?;
    let pool = Fixed::<T>::new(alloc, init, reset, pages.saturating_mul(32));
    let core = new_core::<T>(alloc, &tallies.core, Some(pages));
    let (Ok(pool), Ok(core)) = (pool, core) else {
        return Err(Stopped::Memory);
    };
    let pool = Arc::new(alloc, pool)?;
    let ended = played_fixed(alloc, &pool, core, session, tallies)?;
    drop(pool);
    compare_ends(ended)
}

/// What is left behind the session's calls.
fn played_fixed<T: Value>(
    alloc: Global,
    pool: &Arc<Fixed<T>>,
    core: OnCore<T, Core<T>>,
    session: Session,
    tallies: Tallies,
) -> Result<Ended<OnCore<T, Core<T>>>, Stopped> {
    play(
        alloc,
        OnFixed { pool },
        core,
        session,
        tallies,
        pool.items(),
    )
}

/// A fixed pool.
#[derive(Drop)]
struct OnFixed<'p, T: Value> {
    pool: &'p Arc<Fixed<T>>,
}

impl<'p, T: Value> Side for OnFixed<'p, T> {
    type Item = Held<
        FixedReusable<'p, T, Maker, Traces, AnyValue>,
        FixedOwnedReusable<T, Maker, Traces, AnyValue>,
    >;

    fn give(&mut self, ask: Ask, _tally: &Arc<SideTally>) -> Result<Self::Item, PullError> {
        if !ask.call.owns() {
            let item = self.pool.pull_near(ask.page)?;
            let number = item.number() as u128;
            return Ok(Held::Borrowed(item, Some(number)));
        }
        let owner = Arc::try_clone(self.pool)?;
        let Ok(item) = owner.pull_by_owner(ask.page, self.pool.note()) else {
            return Err(PullError::Limit);
        };
        let number = item.number() as u128;
        Ok(Held::Owned(item, Some(number)))
    }
}

/// Does the session's calls on a mutex pool.
///
/// # Errors
///
/// `Stopped` if the two sides differ, or memory is refused.
pub fn compare_mutex<T: Value, W: Wait + Copy>(
    rt: &W,
    alloc: Global,
    session: Session,
) -> Result<Figures, Stopped> {
    let tallies = Tallies::new(alloc)?;
    let (init, reset) = closures(&tallies.running)?;
    let pool = Ok(MutexObjectPool::new(alloc, init, reset));
    compare_stack::<T, _, W>(rt, alloc, session, tallies, pool)
}

/// Does the session's calls on a spin lock pool.
///
/// # Errors
///
/// `Stopped` if the two sides differ, or memory is refused.
pub fn compare_spin_lock<T: Value, W: Wait + Copy>(
    rt: &W,
    alloc: Global,
    session: Session,
) -> Result<Figures, Stopped> {
    let tallies = Tallies::new(alloc)?;
    let (init, reset) = closures(&tallies.running)?;
    let pool = SpinLockObjectPool::new(alloc, init, reset);
    compare_stack::<T, _, W>(rt, alloc, session, tallies, pool)
}

type OnStackCore<T> = OnCore<T, StackCore<T, Maker, Traces, AnyValue>>;

/// The session's calls. A pull gives the value that was returned last, as the core's does.
fn compare_stack<T: Value, F: FreeList<T, Kept>, W: Wait + Copy>(
    rt: &W,
    alloc: Global,
    session: Session,
    tallies: Tallies,
    pool: Result<Stack<T, F>, PullError>,
) -> Result<Figures, Stopped> {
    let (init, reset) = closures(&tallies.core)?;
    let core: OnStackCore<T> = OnCore::new(StackCore::new(alloc, init, reset));
    let Some((pool, core)) = compare_openings(&tallies, pool, Ok(core))? else {
        return Ok(Figures::default());
    };
    let pool = Arc::new(alloc, pool)?;
    let stack = OnStack { rt, pool: &pool };
    let ended = played_stack(alloc, stack, core, session, tallies)?;
    drop(pool);
    compare_ends(ended)
}

/// What is left behind the session's calls.
fn played_stack<'p, T: Value, F: FreeList<T, Kept>, W: Wait + Copy>(
    alloc: Global,
    stack: OnStack<'p, T, F, W>,
    core: OnStackCore<T>,
    session: Session,
    tallies: Tallies,
) -> Result<Ended<OnStackCore<T>>, Stopped> {
    play(alloc, stack, core, session, tallies, 0)
}

/// A mutex pool or a spin lock pool.
#[derive(Drop)]
struct OnStack<'p, T: Value, F: FreeList<T, Kept>, W> {
    rt: &'p W,
    pool: &'p Arc<Stack<T, F>>,
}

impl<'p, T: Value, F: FreeList<T, Kept>, W: Wait + Copy> Side for OnStack<'p, T, F, W> {
    type Item = Held<StackReusable<T, &'p Stack<T, F>, W>, StackReusable<T, Arc<Stack<T, F>>, W>>;

    fn give(&mut self, ask: Ask, tally: &Arc<SideTally>) -> Result<Self::Item, PullError> {
        match ask.call {
            Call::AttachOwned => {
                let owner = Arc::try_clone(self.pool)?;
                match StackReusable::new(self.rt, owner, attached(tally, ask.number)?) {
                    Ok(item) => Ok(Held::Owned(item, None)),
                    Err(_) => Err(PullError::Memory),
                }
            }
            Call::Attach => {
                match StackReusable::new(self.rt, &**self.pool, attached(tally, ask.number)?) {
                    Ok(item) => Ok(Held::Borrowed(item, None)),
                    Err(_) => Err(PullError::Memory),
                }
            }
            Call::PullOwned => Ok(Held::Owned(self.pool.pull_owned(self.rt)?, None)),
            _ => Ok(Held::Borrowed(self.pool.pull(self.rt)?, None)),
        }
    }
}

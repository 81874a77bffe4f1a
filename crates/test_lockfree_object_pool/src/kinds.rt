//! Each kind, used until `init` refuses, until memory is refused, or to its end: what it owns is
//! dropped once, its items, its `init` and its `reset`.
use crate::assert_equal::assert_equal;
use lockfree_object_pool::clean::{AnyValue, Empty};
use lockfree_object_pool::closures::{Clear, Init, Reset, WithCapacity};
use lockfree_object_pool::{LazyObjectPool, LazyOwnedReusable, LazyReusable, PullError};
use object_pool_cores::buffers::{Buffer, BufferPool};
use object_pool_cores::sequential::{
    Command, LinearCore, Player, Reply, RunError, SequentialPool, StackCore,
};
use rows::setting::{Makes, Resets, Setting, function_objects};
use std::alloc::Global;
use std::process::Abort;
use std::sync::Arc;
use test_values::counted::NEVER;
use test_values::sizes::SIZES;
use test_values::tallied::Tallied;

/// One who pulls: a reference to a pool borrowed items, an owner of it owned ones.
pub trait Pulls: Drop {
    type Item: Drop;

    fn pull_one(&self) -> Result<Self::Item, PullError>;
}

pub fn held<P: Pulls>(alloc: Global, pool: &P, count: usize) -> Result<Vec<P::Item>, PullError> {
    let mut held = Vec::with_capacity(alloc, count)?;
    for _ in 0..count {
        held.push(pool.pull_one()?)?;
    }
    Ok(held)
}

/// Holds items together, and once more when they are back. They come back after who pulled them
/// has ended.
fn hold_twice<P: Pulls>(alloc: Global, pool: P, count: usize) -> Result<(), PullError> {
    drop(held(alloc, &pool, count)?);
    let held = held(alloc, &pool, count)?;
    drop(pool);
    drop(held);
    Ok(())
}

pub type Lazy = LazyObjectPool<Tallied, Makes, Resets>;

impl<'p> Pulls for &'p Lazy {
    type Item = LazyReusable<'p, Tallied, Makes, Resets>;

    fn pull_one(&self) -> Result<Self::Item, PullError> {
        self.pull()
    }
}

impl Pulls for Arc<Lazy> {
    type Item = LazyOwnedReusable<Tallied, Makes, Resets>;

    fn pull_one(&self) -> Result<Self::Item, PullError> {
        self.pull_owned()
    }
}

/// Makes vectors where values of a setting are made. A vector isn't tallied, so the value that
/// stood for it is dropped at once.
#[derive(Drop)]
struct MakesBuffers {
    alloc: Global,
    init: Makes,
}

impl Init<Vec<u8>, Empty> for MakesBuffers {
    fn make(&self) -> Option<Vec<u8>> {
        let _value = self.init.make()?;
        Some(Vec::new(self.alloc))
    }
}

/// Clears vectors, and counts these resets.
#[derive(Drop)]
struct ClearsBuffers {
    setting: Arc<Setting>,
}

impl Reset<Vec<u8>, Empty> for ClearsBuffers {
    fn reset(&self, vector: &mut Vec<u8>) {
        vector.clear();
        self.setting.tally.count_reset();
    }
}

impl<'p, I: Init<Vec<u8>, Empty>, R: Reset<Vec<u8>, Empty>> Pulls for &'p BufferPool<I, R> {
    type Item = Buffer<'p, I, R>;

    fn pull_one(&self) -> Result<Self::Item, PullError> {
        self.pull()
    }
}

#[test]
fn a_pool_whose_init_refuses_at_once_is_not_made(rt: HostRuntime) {
    let ending = end_of("buffers", rt.alloc(), 0, 32);
    assert_equal(&rt, ending, Ok((Err(PullError::Init), (1, 0), 0)));
}

#[test]
fn a_pull_behind_32_held_buffers_is_refused_by_the_limit(rt: HostRuntime) {
    let init = WithCapacity::new(rt.alloc(), 16);
    let pool = BufferPool::new(rt.alloc(), init, Clear, 1).expect(&rt, "a pool is made");
    let buffers = held(rt.alloc(), &&pool, 32).expect(&rt, "32 buffers are free");
    assert_equal(&rt, pool.pull().err(), Some(PullError::Limit));
    drop(buffers);
}

fn played(replied: Result<Reply<Tallied>, RunError>) -> Result<(), PullError> {
    match replied {
        Ok(Reply::Refused(refusal)) => Err(refusal),
        Ok(_) => Ok(()),
        Err(_) => Err(PullError::Memory),
    }
}

pub type Linear = LinearCore<Tallied, Makes, Resets, AnyValue>;

pub type Stack = StackCore<Tallied, Makes, Resets, AnyValue>;

/// A player of a core holds items and returns them, twice, and ends.
fn play<P: SequentialPool<Tallied> + Drop>(
    alloc: Global,
    core: P,
    items: usize,
) -> Result<(), PullError> {
    let mut player = Player::new(alloc, core);
    for first in [0, items] {
        for _ in 0..items {
            played(player.play(Command::Pull))?;
        }
        for index in first..first.saturating_add(items) {
            played(player.play(Command::Return(index)))?;
        }
    }
    Ok(())
}

/// What is opened, used and let go: of two lazy pools one that ends with the last of its items, a
/// pool of buffers, and players of two cores.
const KINDS: [&str; 5] = ["lazy", "owned", "buffers", "linear", "stack"];

/// Opens one, holds so many items together, twice, and lets all go.
fn use_up(
    kind: &str,
    alloc: Global,
    setting: &Arc<Setting>,
    items: usize,
) -> Result<(), PullError> {
    let (init, reset) = function_objects(setting)?;
    match kind {
        "lazy" => hold_twice(alloc, &Lazy::new(alloc, init, reset, items.max(1))?, items),
        "owned" => {
            let pool = Lazy::new(alloc, init, reset, items.max(1))?;
            hold_twice(alloc, Arc::new(alloc, pool)?, items)
        }
        "buffers" => {
            let init = MakesBuffers { alloc, init };
            let setting = Arc::try_clone(setting)?;
            let pages = items.div_ceil(32).max(1);
            let pool = BufferPool::new(alloc, init, ClearsBuffers { setting }, pages)?;
            hold_twice(alloc, &pool, items)
        }
        "linear" => play(alloc, Linear::new(alloc, init, reset)?, items),
        _ => play(alloc, Stack::new(alloc, init, reset), items),
    }
}

/// How a use ended: what it answered, how often `init` was called and values were reset, and how
/// many values, initializers and resets weren't dropped.
type Ending = (Result<(), PullError>, (usize, usize), usize);

/// Uses one whose `init` refuses this call, counted from 0.
fn end_of(kind: &str, alloc: Global, refused: usize, items: usize) -> Result<Ending, PullError> {
    let setting = Setting::new(alloc, refused)?;
    let used = use_up(kind, alloc, &setting, items);
    let tally = &setting.tally;
    let owners = Arc::strong_count(&setting).wrapping_sub(1);
    let left = tally.living().wrapping_add(owners);
    Ok((used, (tally.calls(), tally.resets()), left))
}

/// If nothing is refused, all is dropped, each item was reset at each return, and no more were made
/// than pages of them.
fn ends_after_use(rt: &impl Abort, alloc: Global, kind: &str, items: usize) {
    let ending = end_of(kind, alloc, NEVER, items).expect(rt, "memory is left");
    let (used, (calls, resets), left) = ending;
    let expected = (Ok(()), items.wrapping_mul(2), 0);
    assert_equal(rt, (used, resets, left), expected);
    let beside = calls.max(1).wrapping_sub(items.max(1));
    assert!(*rt; beside < 32, "{calls} made for {items} items of {kind}");
}

/// How many items are held, and how many calls of `init` there are at least: of pages the fourth
/// word is begun.
const ITEMS: usize = 100;

/// `init` refuses at each of a hundred calls: it isn't asked again, its refusal is told as such,
/// and all is dropped.
fn ends_where_init_refuses(rt: &impl Abort, alloc: Global, kind: &str) {
    for refused in 0..ITEMS {
        let ending = end_of(kind, alloc, refused, ITEMS).expect(rt, "memory is left");
        let (used, (calls, _), left) = ending;
        let expected = (Err(PullError::Init), refused + 1, 0);
        assert_equal(rt, (used, calls, left), expected);
    }
}

#[test]
fn what_each_owns_is_dropped(rt: HostRuntime) {
    for kind in KINDS {
        ends_where_init_refuses(&rt, rt.alloc(), kind);
        ends_after_use(&rt, rt.alloc(), kind, ITEMS);
    }
}

#[test]
fn items_of_each_size_come_back(rt: HostRuntime) {
    for kind in KINDS {
        for items in SIZES {
            // `test_sizes`, a built program, has pools and cores of 300,000 items and more.
            if items <= 2_049 {
                ends_after_use(&rt, rt.alloc(), kind, items);
            }
        }
    }
}

/// Whichever request for memory is refused, all is dropped, and there is no other cause. Of 34
/// items the second page or word is begun.
#[test]
fn what_each_owns_is_dropped_where_memory_was_refused(rt: HostRuntime) {
    for kind in KINDS {
        if let Ok((used, _, left)) = end_of(kind, rt.alloc(), NEVER, 34) {
            assert!(rt; matches!(used, Ok(()) | Err(PullError::Memory)));
            assert_equal(&rt, left, 0);
        }
    }
}

//! Turns on the mutex pool and the spin lock pool, which are one pool over two kinds of list.
ghost use Rattle.std.specs.Prelude.{⊤};

use crate::observer::Turns;
use crate::supply::{Buffer, Supply, refused};
use lockfree_object_pool::clean::AnyValue;
use lockfree_object_pool::closures::Reset;
use lockfree_object_pool::free_list::FreeList;
use lockfree_object_pool::kept_stack::KeptStack;
use lockfree_object_pool::made_or_reset::MadeOrReset;
use lockfree_object_pool::stack::Stack;
use lockfree_object_pool::stack_object_pool::StackObjectPool;
use lockfree_object_pool::stack_reusable::{SharedStackPool, StackReusable};
use lockfree_object_pool::{MutexObjectPool, PullError, SpinLockObjectPool};
use std::alloc::Global;
use std::sync::{Arc, Mutex, Wait};

/// A reset that rejects buffers that aren't empty.
#[derive(Drop)]
pub struct KeepEmpty;

impl Reset<Buffer, AnyValue> for KeepEmpty {
    ghost rejects = { λ _ _. ⊤ };

    fn reset(&self, buffer: &mut Buffer) {
        buffer.clear();
    }

    fn try_reset(&self, buffer: Buffer) -> Option<Buffer> {
        buffer.is_empty().then_some(buffer)
    }
}

/// What these pools keep.
type KeptBuffers = MadeOrReset<Supply, KeepEmpty, AnyValue>;

/// The list of a mutex pool.
type Mutexed = Mutex<Stack<Buffer, KeptBuffers>>;

/// The list of a spin lock pool.
type SpinLocked = KeptStack<Buffer, KeptBuffers>;

type Pool<F> = StackObjectPool<Buffer, Supply, KeepEmpty, AnyValue, F>;

/// A list of which a pool can be made.
trait List: FreeList<Buffer, KeptBuffers> {
    fn new_pool(alloc: Global, supply: &Supply) -> Option<Arc<Pool<Self>>>;
}

impl List for Mutexed {
    fn new_pool(alloc: Global, supply: &Supply) -> Option<Arc<Pool<Mutexed>>> {
        let pool = MutexObjectPool::new(alloc, supply.share()?, KeepEmpty);
        Arc::new(alloc, pool).ok()
    }
}

impl List for SpinLocked {
    fn new_pool(alloc: Global, supply: &Supply) -> Option<Arc<Pool<SpinLocked>>> {
        let pool = SpinLockObjectPool::new(alloc, supply.share()?, KeepEmpty).ok()?;
        Arc::new(alloc, pool).ok()
    }
}

/// What is done in a turn.
#[derive(Drop)]
pub enum Kind {
    MutexRefuses,
    MutexReturns,
    MutexEnds,
    SpinLockRefuses,
    SpinLockReturns,
    SpinLockEnds,
}

/// Each kind, and how its line begins.
pub const KINDS: [(&str, Kind); 6] = [
    ("refused pulls of a mutex pool", Kind::MutexRefuses),
    ("items of a mutex pool", Kind::MutexReturns),
    ("mutex pools", Kind::MutexEnds),
    ("refused pulls of a spin lock pool", Kind::SpinLockRefuses),
    ("items of a spin lock pool", Kind::SpinLockReturns),
    ("spin lock pools", Kind::SpinLockEnds),
];

impl Turns for Kind {
    fn take<W: Wait + Copy>(&self, rt: &W, alloc: Global, turns: usize) -> Option<()> {
        match self {
            Kind::MutexRefuses => refused_pulls::<Mutexed, W>(rt, alloc, turns),
            Kind::MutexReturns => returns::<Mutexed, W>(rt, alloc, turns),
            Kind::MutexEnds => ends::<Mutexed, W>(rt, alloc, turns),
            Kind::SpinLockRefuses => refused_pulls::<SpinLocked, W>(rt, alloc, turns),
            Kind::SpinLockReturns => returns::<SpinLocked, W>(rt, alloc, turns),
            Kind::SpinLockEnds => ends::<SpinLocked, W>(rt, alloc, turns),
        }
    }
}

/// Pulls are refused by `init`, each after it has made a room.
fn refused_pulls<F: List, W: Wait + Copy>(rt: &W, alloc: Global, turns: usize) -> Option<()> {
    let supply = Supply::endless(alloc)?;
    let pool = F::new_pool(alloc, &supply)?;
    supply.end_after(0);
    for _ in 0..turns {
        refused(pool.pull(rt), PullError::Init)?;
        refused(pool.pull_owned(rt), PullError::Init)?;
    }
    Some(())
}

/// Items are pulled and returned, one of which is rejected, and one leaves its pool for good.
fn returns<F: List, W: Wait + Copy>(rt: &W, alloc: Global, turns: usize) -> Option<()> {
    let pool = F::new_pool(alloc, &Supply::endless(alloc)?)?;
    for _ in 0..turns {
        let _borrowed = pool.pull(rt).ok()?;
        let _owned = pool.pull_owned(rt).ok()?;
        pool.pull(rt).ok()?.push(1).ok()?;
        drop(pool.pull(rt).ok()?.detach());
    }
    Some(())
}

/// A pool ends, once items that were attached to it came back, and others that were pulled then.
fn ends<F: List, W: Wait + Copy>(rt: &W, alloc: Global, turns: usize) -> Option<()> {
    let supply = Supply::endless(alloc)?;
    for _ in 0..turns {
        let pool = F::new_pool(alloc, &supply)?;
        drop(attached(rt, &*pool, &supply)?);
        hold_two(rt, &pool, &supply)?;
    }
    Some(())
}

/// An item to which a buffer is attached.
fn attached<P: SharedStackPool<Buffer>, W: Wait + Copy>(
    rt: &W,
    pool: P,
    supply: &Supply,
) -> Option<StackReusable<Buffer, P, W>> {
    StackReusable::new(rt, pool, supply.buffer()?).ok()
}

/// An attached item and one that is pulled are held together, and own their pool.
fn hold_two<F: List, W: Wait + Copy>(rt: &W, pool: &Arc<Pool<F>>, supply: &Supply) -> Option<()> {
    let _attached = attached(rt, Arc::try_clone(pool).ok()?, supply)?;
    let _pulled = pool.pull_owned(rt).ok()?;
    Some(())
}

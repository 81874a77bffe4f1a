//! A pool over a stack of kept values under a spin lock.
//!
//! It isn't lock free: a thread that stops while it has the lock keeps all others waiting.
ghost use Rattle.std.specs.Prelude.{◌≡◌, ◌⊎◌, Some, IfOk, IfErr, ⊤};

use crate::kept_stack::KeptStack;
use crate::stack_note::StackNote;
use crate::stack_object_pool::StackObjectPool;
use crate::stack_reusable::StackReusable;
use pool_parts::PullError;
use pool_parts::clean::{AnyValue, Clean};
use pool_parts::closures::{Init, Reset};
use pool_parts::made_or_reset::MadeOrReset;
use std::alloc::Global;
use std::fmt::{self, Debug, Formatter, Write};
use std::sync::Arc;

/// A pool that keeps returned values in a stack under a spin lock.
///
/// A pull takes the value that was returned last, or makes one if none is kept.
///
/// # Examples
///
/// ```rust
/// let pool: SpinLockObjectPool<u32, _, _> = SpinLockObjectPool::new(alloc, Copied::new(0), Keep)?;
/// *pool.pull(&rt)? = 5; // its drop keeps it
/// assert_eq!(rt; *pool.pull(&rt)?, 5);
/// ```
pub type SpinLockObjectPool<T, I, R, K = AnyValue> = StackObjectPool<
    T,
    I,
    R,
    K,
    KeptStack<T, MadeOrReset<I, R, K>>,
>;

/// A value that was pulled from a spin lock pool or attached to it, under a borrow of it.
///
/// It has the room for its return: its drop resets the value, waits for the pool's lock and returns
/// the value.
///
/// # Examples
///
/// ```rust
/// let item = SpinLockReusable::new(&rt, &pool, 5)?; // its drop gives the pool a value
/// ```
pub type SpinLockReusable<'p, T, I, R, W, K = AnyValue> = StackReusable<
    T,
    &'p SpinLockObjectPool<T, I, R, K>,
    W,
>;

/// A value that was pulled from a spin lock pool or attached to it, with an owner of it.
///
/// It has the room for its return: its drop resets the value, waits for the pool's lock and returns
/// the value.
///
/// # Examples
///
/// ```rust
/// let pool = Arc::new(alloc, pool)?;
/// let item = pool.pull_owned(&rt)?; // may go to any thread
/// ```
pub type SpinLockOwnedReusable<T, I, R, W, K = AnyValue> = StackReusable<
    T,
    Arc<SpinLockObjectPool<T, I, R, K>>,
    W,
>;

impl<T: Drop, I: Init<T, K>, R: Reset<T, K>, K: Clean<T>> SpinLockObjectPool<T, I, R, K> {
    ghost use Rattle.stack_pools.specs.StackHistory.{IsNoteOf, GoesOn};
    ghost use Rattle.stack_pools.specs.StackPool.{stack_view};
    ghost use Rattle.pool_parts.specs.Answers.{Refuses};

    /// Creates a pool that keeps nothing yet.
    ///
    /// # Errors
    ///
    /// `Memory` if there is no memory for the lock.
    ///
    /// # Examples
    ///
    /// ```rust
    /// let pool = SpinLockObjectPool::<u32, _, _>::new(alloc, Copied::new(0), Keep)?;
    /// ```
    pub fn new(
        alloc: Global,
        init: I,
        reset: R,
    ) -> Result<SpinLockObjectPool<T, I, R, K>, PullError>
        ensures init { IfOk result (λ pool. (stack_view pool).init ≡ init) }
        ensures reset { IfOk result (λ pool. (stack_view pool).reset ≡ reset) }
        ensures refused { IfErr result (Refuses ⊤ ⊥ ⊥) }
    {
        match KeptStack::new(alloc) {
            Some(kept) => Ok(StackObjectPool::over(alloc, init, reset, kept)),
            None => Err(PullError::Memory),
        }
    }

    /// Adds to what one note knows what another knows: of the two histories one is a prefix of the
    /// other. It costs two loads.
    ///
    /// # Examples
    ///
    /// ```rust
    /// let both = pool.learn(first, second); // comes after what both threads know
    /// ```
    pub fn learn(&self, note: StackNote<T>, other: StackNote<T>) -> StackNote<T>
        requires of { IsNoteOf (Some (stack_view self.now).list) note }
        requires other_of { IsNoteOf (Some (stack_view self.now).list) other }
        ensures of { IsNoteOf (Some (stack_view self.now).list) result }
        ensures after { GoesOn note result }
        ensures after_other { GoesOn other result }
        ensures one { GoesOn note other ⊎ GoesOn other note }
    {
        self.kept.learn(note, other)
    }
}

impl<T: Drop, I: Init<T, K>, R: Reset<T, K>, K: Clean<T>> Debug for SpinLockObjectPool<T, I, R, K> {
    fn fmt<W: Write>(&self, f: &mut Formatter<W>) -> fmt::Result {
        f.debug_struct("SpinLockObjectPool").finish_non_exhaustive()
    }
}

//! A pool over a stack of kept values under a mutex.
ghost use Rattle.std.specs.Prelude.{◌≡◌};

use crate::stack_object_pool::StackObjectPool;
use crate::stack_reusable::StackReusable;
use kept_values::stack::Stack;
use pool_parts::clean::{AnyValue, Clean};
use pool_parts::closures::{Init, Reset};
use pool_parts::made_or_reset::MadeOrReset;
use std::alloc::Global;
use std::fmt::{self, Debug, Formatter, Write};
use std::sync::{Arc, Mutex};

/// A pool that keeps returned values in a stack under a mutex.
///
/// A pull takes the value that was returned last, or makes one if none is kept.
///
/// # Examples
///
/// ```rust
/// let pool: MutexObjectPool<u32, _, _> = MutexObjectPool::new(alloc, Copied::new(0), Keep);
/// *pool.pull(&rt)? = 5; // its drop keeps it
/// assert_eq!(rt; *pool.pull(&rt)?, 5);
/// ```
pub type MutexObjectPool<T, I, R, K = AnyValue> = StackObjectPool<
    T,
    I,
    R,
    K,
    Mutex<Stack<T, MadeOrReset<I, R, K>>>,
>;

/// A value that was pulled from a mutex pool or attached to it, under a borrow of it.
///
/// It has the room for its return: its drop resets the value, waits for the pool's mutex and
/// returns the value.
///
/// # Examples
///
/// ```rust
/// *pool.pull(&rt)? = 5; // its drop keeps it
/// ```
pub type MutexReusable<'p, T, I, R, W, K = AnyValue> = StackReusable<
    T,
    &'p MutexObjectPool<T, I, R, K>,
    W,
>;

/// A value that was pulled from a mutex pool or attached to it, with an owner of it.
///
/// It has the room for its return: its drop resets the value, waits for the pool's mutex and
/// returns the value.
///
/// # Examples
///
/// ```rust
/// let owner = Arc::try_clone(&pool)?;
/// let item = MutexOwnedReusable::new(&rt, owner, 6)?;
/// ```
pub type MutexOwnedReusable<T, I, R, W, K = AnyValue> = StackReusable<
    T,
    Arc<MutexObjectPool<T, I, R, K>>,
    W,
>;

impl<T: Drop, I: Init<T, K>, R: Reset<T, K>, K: Clean<T>> MutexObjectPool<T, I, R, K> {
    ghost use Rattle.stack_pools.specs.StackPool.{stack_view};

    /// Creates a pool that keeps nothing yet. It takes no memory.
    ///
    /// # Examples
    ///
    /// ```rust
    /// let pool: MutexObjectPool<u32, _, _> = MutexObjectPool::new(alloc, Copied::new(0), Keep);
    /// ```
    pub fn new(alloc: Global, init: I, reset: R) -> MutexObjectPool<T, I, R, K>
        ensures init { (stack_view result).init ≡ init }
        ensures reset { (stack_view result).reset ≡ reset }
    {
        StackObjectPool::over(alloc, init, reset, Mutex::new(Stack::new()))
    }
}

impl<T: Drop, I: Init<T, K>, R: Reset<T, K>, K: Clean<T>> Debug for MutexObjectPool<T, I, R, K> {
    fn fmt<W: Write>(&self, f: &mut Formatter<W>) -> fmt::Result {
        f.debug_struct("MutexObjectPool").finish_non_exhaustive()
    }
}

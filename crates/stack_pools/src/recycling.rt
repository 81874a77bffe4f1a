//! Stack pools of types that define how they are made and reset.
//!
//! A type needs one impl of [`Recyclable`]. Its pools are [`MutexPool`] and [`SpinLockPool`].
ghost use Rattle.std.specs.Prelude.{IfErr, ⊤};

use crate::mutex_object_pool::{MutexObjectPool, MutexOwnedReusable, MutexReusable};
use crate::spin_lock_object_pool::{SpinLockObjectPool, SpinLockOwnedReusable, SpinLockReusable};
use pool_parts::PullError;
pub use pool_parts::recycling::{Recyclable, Recycler};
use std::alloc::Global;

/// The mutex pool of a [`Recyclable`] type.
///
/// # Examples
///
/// ```rust
/// let pool = MutexPool::<Vec<u8>>::with_recycler(alloc);
/// assert_eq!(rt; pool.pull(&rt)?.len(), 0);
/// ```
pub type MutexPool<T> = MutexObjectPool<T, Recycler, Recycler, Recycler>;

/// A value that was pulled from a [`MutexPool`] or attached to it, under a borrow of it.
///
/// # Examples
///
/// ```rust
/// let pool = MutexPool::<Vec<u8>>::with_recycler(alloc);
/// assert_eq!(rt; pool.pull(&rt)?.len(), 0);
/// ```
pub type MutexPoolReusable<'p, T, W> = MutexReusable<'p, T, Recycler, Recycler, W, Recycler>;

/// A value that was pulled from a [`MutexPool`] or attached to it, with an owner of it.
///
/// # Examples
///
/// ```rust
/// let pool = Arc::new(alloc, pool)?;
/// let item = pool.pull_owned(&rt)?; // may go to any thread
/// ```
pub type MutexPoolOwnedReusable<T, W> = MutexOwnedReusable<T, Recycler, Recycler, W, Recycler>;

impl<T: Recyclable> MutexPool<T> {
    /// Creates a pool that keeps nothing yet. It takes no memory.
    ///
    /// # Examples
    ///
    /// ```rust
    /// let pool = MutexPool::<Vec<u8>>::with_recycler(alloc);
    /// ```
    pub fn with_recycler(alloc: Global) -> MutexPool<T> {
        let recycler = Recycler::new(alloc);
        MutexObjectPool::new(alloc, recycler, recycler)
    }
}

/// The spin lock pool of a [`Recyclable`] type.
///
/// # Examples
///
/// ```rust
/// let pool = SpinLockPool::<Vec<u8>>::with_recycler(alloc)?;
/// assert_eq!(rt; pool.pull(&rt)?.len(), 0);
/// ```
pub type SpinLockPool<T> = SpinLockObjectPool<T, Recycler, Recycler, Recycler>;

/// A value that was pulled from a [`SpinLockPool`] or attached to it, under a borrow of it.
///
/// # Examples
///
/// ```rust
/// let pool = SpinLockPool::<Vec<u8>>::with_recycler(alloc)?;
/// assert_eq!(rt; pool.pull(&rt)?.len(), 0);
/// ```
pub type SpinLockPoolReusable<'p, T, W> = SpinLockReusable<'p, T, Recycler, Recycler, W, Recycler>;

/// A value that was pulled from a [`SpinLockPool`] or attached to it, with an owner of it.
///
/// # Examples
///
/// ```rust
/// let pool = Arc::new(alloc, pool)?;
/// let item = pool.pull_owned(&rt)?; // may go to any thread
/// ```
pub type SpinLockPoolOwnedReusable<T, W> = SpinLockOwnedReusable<
    T,
    Recycler,
    Recycler,
    W,
    Recycler,
>;

impl<T: Recyclable> SpinLockPool<T> {
    ghost use Rattle.pool_parts.specs.Answers.{Refuses};

    /// Creates a pool that keeps nothing yet.
    ///
    /// # Errors
    ///
    /// `Memory` if there is no memory for the lock.
    ///
    /// # Examples
    ///
    /// ```rust
    /// let pool = SpinLockPool::<Vec<u8>>::with_recycler(alloc)?;
    /// ```
    pub fn with_recycler(alloc: Global) -> Result<SpinLockPool<T>, PullError>
        ensures refused { IfErr result (Refuses ⊤ ⊥ ⊥) }
    {
        let recycler = Recycler::new(alloc);
        SpinLockObjectPool::new(alloc, recycler, recycler)
    }
}

//! The lazy pool of values that say themselves how they are made and reset.
ghost use Rattle.std.specs.Prelude.{◌≡◌, ◌≤◌, IfOk, IfErr, ⊤};

use crate::lazy_object_pool::LazyObjectPool;
use crate::lazy_owned_reusable::LazyOwnedReusable;
use crate::lazy_reusable::LazyReusable;
use pool_parts::PullError;
pub use pool_parts::recycling::{Recyclable, Recycler};
use std::alloc::Global;

/// The lazy pool of a [`Recyclable`] type: each of its values is made when it is first needed.
///
/// # Examples
///
/// ```rust
/// let pool = LazyPool::<Vec<u8>>::with_recycler(alloc, 8)?;
/// ```
pub type LazyPool<T> = LazyObjectPool<T, Recycler, Recycler, Recycler>;

/// A value that was pulled from a [`LazyPool`], under a borrow of it.
///
/// # Examples
///
/// ```rust
/// let pool = LazyPool::<Vec<u8>>::with_recycler(alloc, 8)?;
/// assert_eq!(rt; pool.pull()?.len(), 0);
/// ```
pub type LazyPoolReusable<'p, T> = LazyReusable<'p, T, Recycler, Recycler, Recycler>;

/// A value that was pulled from a [`LazyPool`], with an owner of it.
///
/// # Examples
///
/// ```rust
/// let pool = Arc::new(alloc, pool)?;
/// let item = pool.pull_owned()?; // may go to any thread
/// ```
pub type LazyPoolOwnedReusable<T> = LazyOwnedReusable<T, Recycler, Recycler, Recycler>;

impl<T: Recyclable> LazyPool<T> {
    ghost use Rattle.lazy_pools.specs.LazyPool.{lazy_view};
    ghost use Rattle.pool_parts.specs.Answers.{Refuses};

    /// Creates a pool of `items` empty places. It makes no value.
    ///
    /// # Errors
    ///
    /// `Memory`.
    ///
    /// # Examples
    ///
    /// ```rust
    /// let pool = LazyPool::<Vec<u8>>::with_recycler(alloc, 8)?;
    /// ```
    pub fn with_recycler(alloc: Global, items: usize) -> Result<LazyPool<T>, PullError>
        requires { 1 ≤ items }
        ensures items { IfOk result (λ pool. (lazy_view pool).items ≡ items) }
        ensures refused { IfErr result (Refuses ⊤ ⊥ ⊥) }
    {
        let recycler = Recycler::new(alloc);
        LazyObjectPool::new(alloc, recycler, recycler, items)
    }
}

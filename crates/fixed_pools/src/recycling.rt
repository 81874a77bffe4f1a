//! The fixed pool of values that say themselves how they are made and reset.
ghost use Rattle.std.specs.Prelude.{◌≡◌, ◌≤◌, ⊤, IfOk, IfErr};

use crate::fixed_object_pool::FixedObjectPool;
use crate::fixed_owned_reusable::FixedOwnedReusable;
use crate::fixed_reusable::FixedReusable;
use pool_parts::PullError;
pub use pool_parts::recycling::{Recyclable, Recycler};
use std::alloc::Global;

/// The fixed pool of a [`Recyclable`] type: all its values are made at first.
///
/// # Examples
///
/// ```rust
/// let pool = FixedPool::<Vec<u8>>::with_recycler(alloc, 8)?;
/// ```
pub type FixedPool<T> = FixedObjectPool<T, Recycler, Recycler, Recycler>;

/// A value that was pulled from a [`FixedPool`], under a borrow of it.
///
/// # Examples
///
/// ```rust
/// let pool = FixedPool::<Vec<u8>>::with_recycler(alloc, 8)?;
/// assert_eq!(rt; pool.pull()?.len(), 0);
/// ```
pub type FixedPoolReusable<'p, T> = FixedReusable<'p, T, Recycler, Recycler, Recycler>;

/// A value that was pulled from a [`FixedPool`], with an owner of it.
///
/// # Examples
///
/// ```rust
/// let pool = Arc::new(alloc, pool)?;
/// let item = pool.pull_owned()?; // may go to any thread
/// ```
pub type FixedPoolOwnedReusable<T> = FixedOwnedReusable<T, Recycler, Recycler, Recycler>;

impl<T: Recyclable> FixedPool<T> {
    ghost use Rattle.fixed_pools.specs.FixedPool.{fixed_view};
    ghost use Rattle.pool_parts.specs.Answers.{Refuses};

    /// Creates a pool of `items` values.
    ///
    /// # Errors
    ///
    /// `Memory`, or `Init` if a value can't be made. The values that were made are dropped.
    ///
    /// # Examples
    ///
    /// ```rust
    /// let pool = FixedPool::<Vec<u8>>::with_recycler(alloc, 8)?;
    /// ```
    pub fn with_recycler(alloc: Global, items: usize) -> Result<FixedPool<T>, PullError>
        requires { 1 ≤ items }
        ensures items { IfOk result (λ pool. (fixed_view pool).items ≡ items) }
        ensures refused { IfErr result (Refuses ⊤ ⊤ ⊥) }
    {
        let recycler = Recycler::new(alloc);
        FixedObjectPool::new(alloc, recycler, recycler, items)
    }
}

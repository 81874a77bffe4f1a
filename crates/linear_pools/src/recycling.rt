//! The linear pool of values that say themselves how they are made and reset.
ghost use Rattle.std.specs.Prelude.{◌≡◌, ◌≤◌, ⊤, None, Some, IfOk, IfErr};

use crate::linear_object_pool::LinearObjectPool;
use crate::linear_owned_reusable::LinearOwnedReusable;
use crate::linear_reusable::LinearReusable;
use pool_parts::PullError;
pub use pool_parts::recycling::{Recyclable, Recycler};
use std::alloc::Global;

/// The linear pool of a [`Recyclable`] type.
///
/// # Examples
///
/// ```rust
/// let pool = Pool::<Vec<u8>>::with_recycler(alloc)?;
/// pool.pull()?.push(5)?; // its drop brings it back
/// assert_eq!(rt; pool.pull()?.len(), 0);
/// ```
pub type Pool<T> = LinearObjectPool<T, Recycler, Recycler, Recycler>;

/// A value that was pulled from a [`Pool`], under a borrow of it.
///
/// # Examples
///
/// ```rust
/// pool.pull()?.push(5)?; // its drop brings it back
/// ```
pub type Reusable<'p, T> = LinearReusable<'p, T, Recycler, Recycler, Recycler>;

/// A value that was pulled from a [`Pool`], with an owner of it.
///
/// # Examples
///
/// ```rust
/// let pool = Arc::new(alloc, pool)?;
/// let item = pool.pull_owned()?; // may go to any thread
/// ```
pub type OwnedReusable<T> = LinearOwnedReusable<T, Recycler, Recycler, Recycler>;

impl<T: Recyclable> Pool<T> {
    ghost use Rattle.linear_pools.specs.LinearPool.{linear_view};
    ghost use Rattle.pool_parts.specs.Answers.{Refuses};

    /// Creates a pool of one page, which grows by a page if each is full.
    ///
    /// # Errors
    ///
    /// As [`LinearObjectPool::new`].
    ///
    /// # Examples
    ///
    /// ```rust
    /// let pool = Pool::<Vec<u8>>::with_recycler(alloc)?;
    /// ```
    pub fn with_recycler(alloc: Global) -> Result<Pool<T>, PullError>
        ensures limit { IfOk result (λ pool. (linear_view pool).limit ≡ None) }
        ensures refused { IfErr result (Refuses ⊤ ⊤ ⊥) }
    {
        let recycler = Recycler::new(alloc);
        LinearObjectPool::new(alloc, recycler, recycler)
    }

    /// Creates a pool of one page, which grows to at most `pages` pages of 32 values.
    ///
    /// # Errors
    ///
    /// As [`LinearObjectPool::new`].
    ///
    /// # Examples
    ///
    /// ```rust
    /// let pool = Pool::<Vec<u8>>::with_recycler_within(alloc, 2)?; // at most 64 vectors
    /// ```
    pub fn with_recycler_within(alloc: Global, pages: usize) -> Result<Pool<T>, PullError>
        requires { 1 ≤ pages }
        ensures limit { IfOk result (λ pool. (linear_view pool).limit ≡ Some pages) }
        ensures refused { IfErr result (Refuses ⊤ ⊤ ⊥) }
    {
        let recycler = Recycler::new(alloc);
        LinearObjectPool::with_limit(alloc, recycler, recycler, pages)
    }
}

//! Why a pull gave no item of a lazy pool, where its error is no `PullError`.
ghost use Rattle.lazy_pools.specs.LazyPool.{cause_of};
ghost use Rattle.std.specs.Prelude.{◌≡◌};

use fixed_pools::fixed_object_pool::{BusySeen, PoolNote};
use pool_parts::PullError;

/// Why [`super::LazyObjectPool::try_pull`] gave no item.
///
/// # Examples
///
/// ```rust
/// match pool.try_pull(&pass) {
///     Ok(_item) => "an item",
///     Err(LazyRefused::Busy(_)) => "each item was seen in use",
///     Err(LazyRefused::NotMade) => "`init` returned `None`",
///     Err(LazyRefused::Closed) => "the pool is closed",
/// }
/// ```
#[derive(Drop)]
pub enum LazyRefused<'p, T> {
    /// Each item was in use at some moment of the call.
    Busy(BusySeen<'p, Option<T>>),
    /// `init` returned `None`. The place is free again, and empty.
    NotMade,
    /// The pool was closed.
    Closed,
}

/// Why a pull by a closure of the call, as [`super::LazyObjectPool::pull_with`], gave no item.
///
/// # Examples
///
/// ```rust
/// match pool.pull_with(|| Err("the server is down")) {
///     Err(PullWithError::Make(cause)) => cause,
///     Err(_) => "no item is free",
///     Ok(_item) => "an item is there",
/// }
/// ```
#[derive(Drop)]
pub enum PullWithError<T, E> {
    /// The pool can have no more owners. Only of owned pulls.
    Memory,
    /// No item was free at one moment of the call, as this note knows. Not of pulls that wait
    /// however long.
    Limit(PoolNote<Option<T>>),
    /// The closure of the call failed. The place is free again, and empty.
    Make(E),
    /// The pool was closed.
    Closed,
}

/// Why a call took no place.
#[derive(Drop)]
pub(crate) enum NoPlace<T> {
    /// No place was free at one moment of the call, as this note knows.
    Full(PoolNote<Option<T>>),
    /// The pool was closed.
    Closed,
}

impl<T> From<NoPlace<T>> for PullError {
    ghost from_gives = { λ none error. error ≡ cause_of none };

    fn from(none: NoPlace<T>) -> PullError {
        match none {
            NoPlace::Full(_) => PullError::Limit,
            NoPlace::Closed => PullError::Closed,
        }
    }
}

impl<T, E> From<NoPlace<T>> for PullWithError<T, E> {
    ghost use Rattle.lazy_pools.specs.LazyPool.{cause_with};

    ghost from_gives = { λ none error. error ≡ cause_with none };

    fn from(none: NoPlace<T>) -> PullWithError<T, E> {
        match none {
            NoPlace::Full(full) => PullWithError::Limit(full),
            NoPlace::Closed => PullWithError::Closed,
        }
    }
}

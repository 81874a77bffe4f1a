//! A value that was pulled from a lazy pool, with an owner of the pool.
use crate::lazy_object_pool::LazyObjectPool;
use crate::lazy_reusable::LazyReusableOf;
use pool_parts::clean::AnyValue;
use std::sync::Arc;

/// A pulled value, with an owner of its pool. Its drop resets it and returns it.
///
/// # Examples
///
/// ```rust
/// let pool = Arc::new(alloc, pool)?;
/// let mut item = pool.pull_owned()?;
/// *item = 5;
/// let value = item.detach(); // a later pull makes a new item
/// ```
pub type LazyOwnedReusable<T, I, R, K = AnyValue> = LazyReusableOf<
    T,
    Arc<LazyObjectPool<T, I, R, K>>,
>;

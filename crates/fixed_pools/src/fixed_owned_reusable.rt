//! A value that was pulled from a fixed pool, with an owner of the pool.
use crate::fixed_object_pool::FixedObjectPool;
use crate::fixed_reusable::FixedReusableOf;
use pool_parts::clean::AnyValue;
use std::sync::Arc;

/// A pulled value, with an owner of its pool. Its drop resets it and brings it back.
///
/// # Examples
///
/// ```rust
/// let pool = Arc::new(alloc, pool)?;
/// let mut item = pool.pull_owned()?;
/// drop(pool); // the item keeps the pool alive
/// *item = 5;
/// ```
pub type FixedOwnedReusable<T, I, R, K = AnyValue> = FixedReusableOf<
    T,
    Arc<FixedObjectPool<T, I, R, K>>,
>;

//! Pools that have owners. Functions of their own make them, which know of memory alone: each step
//! of a function that is generic in what a program may do costs its proof more.
use lockfree_object_pool::PullError;
use std::alloc::Global;
use std::sync::Arc;

/// Gives a pool its first owner.
///
/// # Errors
///
/// `Memory`.
pub fn shared<P: Drop>(alloc: Global, pool: P) -> Result<Arc<P>, PullError> {
    Ok(Arc::new(alloc, pool)?)
}

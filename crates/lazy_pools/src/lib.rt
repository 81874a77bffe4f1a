//! Pools of items that are made when they are first needed, and whose pulls may wait for one.
//!
//! A call that may wait takes a permission to; no other pull and no return waits. A program that
//! isn't allowed to wait takes `linear_pools` or `fixed_pools`.
#![tactic(auto)]

pub mod lazy_object_pool;
pub mod lazy_owned_reusable;
pub mod lazy_reusable;
pub mod near;
pub mod recycling;

pub use lazy_object_pool::LazyObjectPool;
pub use lazy_owned_reusable::LazyOwnedReusable;
pub use lazy_reusable::LazyReusable;
pub use near::Near;
pub use pool_parts::{PullError, clean, closures, page};

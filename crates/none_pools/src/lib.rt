//! A pool that keeps nothing, to compare other pools with. It never waits.
#![tactic(auto)]

pub mod none_object_pool;
pub mod none_reusable;

pub use none_object_pool::NoneObjectPool;
pub use none_reusable::NoneReusable;
pub use pool_parts::PullError;

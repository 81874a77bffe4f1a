//! Object pools with a fixed number of items, all made when the pool is.
//!
//! No call waits.
#![tactic(auto)]

pub mod fixed_object_pool;
pub mod fixed_owned_reusable;
pub mod fixed_reusable;
pub mod near;
pub mod own_page;
pub mod recycling;

pub use fixed_object_pool::FixedObjectPool;
pub use fixed_owned_reusable::FixedOwnedReusable;
pub use fixed_reusable::FixedReusable;
pub use pool_parts::{PullError, clean, closures, page};

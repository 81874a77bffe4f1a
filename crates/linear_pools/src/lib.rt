//! Object pools that grow by a page of 32 items when all that they have are in use.
//!
//! No call waits.
#![tactic(auto)]

pub mod linear_object_pool;
pub mod linear_owned_reusable;
pub mod linear_reusable;
pub mod recycling;

pub use linear_object_pool::LinearObjectPool;
pub use linear_owned_reusable::LinearOwnedReusable;
pub use linear_reusable::LinearReusable;
pub use page_chain::linear_page;
pub use pool_parts::{PullError, clean, closures, page};

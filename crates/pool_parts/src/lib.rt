//! The parts of object pools.
//!
//! They are: the condition of a pool's values, their initializers and resets, types that define
//! these for themselves, why a pull is refused, what reusables share, and pages of items that threads share without a
//! lock.
//!
//! No call waits for another thread.
#![tactic(auto)]

pub mod clean;
pub mod closures;
pub mod made_or_reset;
pub mod page;
pub mod pull_error;
pub mod recycling;
pub mod reusable;

pub use pull_error::PullError;

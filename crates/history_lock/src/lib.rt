//! A spin lock whose value has one sequential history: each critical section adds an operation.
//!
//! A [`Law`] says which values a history may leave. Whoever takes the lock knows a history that
//! leaves the value found, and frees the lock by one operation more.
#![tactic(auto)]

pub mod law;
pub mod lock;
mod rule;
pub mod seen;

pub use law::{Law, Section};
pub use lock::{HistoryLock, Turn};
pub use rule::Visitor;
pub use seen::Seen;

//! Workers: handles of a pool, one for each thread, which keep items that came back.
//!
//! A worker that has as many items at a time as it keeps pulls each from its pool once. Its other
//! pulls and drops take what it keeps, and keep it again: no atomic step that writes, no memory.
//!
//! An item that is kept is in use for all others. So a pool with an item for each that workers keep
//! refuses none that has no more at a time, but it may refuse a pull elsewhere. A thread that waits
//! for an item of a lazy pool isn't woken when a worker keeps one, only when the worker returns it.
//!
//! A worker of a closed lazy pool returns what it keeps at its next pull or return, or at its end.
#![tactic(auto)]

pub mod fixed;
pub mod lazy;
pub mod linear;
mod shelf;
mod spare;
pub mod worker;
pub mod worker_place;
pub mod worker_reusable;

pub use worker::Worker;
pub use worker_place::WorkerPlace;
pub use worker_reusable::WorkerReusable;

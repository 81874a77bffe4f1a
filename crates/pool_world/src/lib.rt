//! The core of the linear pool as a transition system of any number of agents, and what sequential
//! pools have in common with it: the numbers of items, and why a run stops.
//!
//! A program uses it by `object_pool_cores`, above it, which exports `interleave` and `RunError`.
#![tactic(auto)]

pub mod interleave;
pub mod numbers;
pub mod run_error;

pub use run_error::RunError;

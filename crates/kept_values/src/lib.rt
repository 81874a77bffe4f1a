//! The list of values that a stack pool keeps under its lock, last returned first.
//!
//! No call waits for another thread.
#![tactic(auto)]

pub mod stack;

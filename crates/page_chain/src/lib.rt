//! A chain of pages of items. It grows by a page at its end, and threads pull from it without a
//! lock.
//!
//! No call waits for another thread.
#![tactic(auto)]

pub mod linear_page;

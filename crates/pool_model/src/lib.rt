//! What games with whole pools share: values whose makings, resets and drops are counted, and a
//! plain model of a pool.
#![tactic(auto)]

pub mod book;
pub mod model;
pub mod value;

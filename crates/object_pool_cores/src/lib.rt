//! The cores of the object pools: sequential ones with exact contracts, and a transition system of
//! any number of agents. Beside them a pool of byte buffers, which stands on the pool that threads
//! share.
#![tactic(auto)]

pub mod buffers;
pub mod engine;
pub mod sequential;

pub use pool_world::interleave;

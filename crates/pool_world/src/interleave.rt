//! The linear pool's core with any number of agents, as a transition system: their atomic steps
//! interleave in any order.
//!
//! An agent is the life of one reusable: one pull, at most one return. A thread with several
//! reusables is several agents. A [`World`] has pages in order, each a word and 32 places, and
//! agents numbered from 0 in order of their [`Event::Begin`]. Each [`Event`] is one transition, and
//! [`Seen`] is what it answers.

mod event;
mod machine;
mod moves;
mod point;
mod prepared;
mod world;
mod world_page;

pub use crate::run_error::RunError;
pub use event::{Event, Seen};
pub use prepared::Prepared;
pub use world::World;

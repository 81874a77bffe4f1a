//! Tests of the cores with one owner, the player, the world of agents, the engine over lines, and
//! the pool of byte buffers: rows of commands, and what no row can say.
#![tactic(auto)]

#[cfg(test)]
mod assert_equal;
#[cfg(test)]
mod buffers;
#[cfg(test)]
mod cores;
#[cfg(test)]
mod engine;
#[cfg(test)]
mod values;
#[cfg(test)]
mod worlds;

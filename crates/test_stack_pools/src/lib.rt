//! Tests of the mutex pool and the spin lock pool, of their parts, the lock with a history among
//! them, and of the pool that keeps nothing.
#![tactic(auto)]

#[cfg(test)]
mod callers;
#[cfg(test)]
mod lock_history;
#[cfg(test)]
mod no_memory;
#[cfg(test)]
mod none_pool;
#[cfg(test)]
mod parts;
#[cfg(test)]
mod pull_error;
#[cfg(test)]
mod sends;
#[cfg(test)]
mod stack_game;
#[cfg(test)]
mod stack_player;
#[cfg(test)]
mod stack_rows;
#[cfg(test)]
mod stack_threads;
#[cfg(test)]
mod values;

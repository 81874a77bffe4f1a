//! Tests of refused memory: of pages and linear pools, of the cores, their players and buffers, the
//! world and the engine.
//!
//! Each test holds where any one of its requests for memory is refused, and where none is. It
//! prints which of the two it met, which `ci/refuse_memory` compares with what it refused.
#![tactic(auto)]

#[cfg(test)]
mod assert_equal;
#[cfg(test)]
mod buffers;
#[cfg(test)]
mod engine;
#[cfg(test)]
mod fixed_pool;
#[cfg(test)]
mod linear_pool;
#[cfg(test)]
mod pages;
#[cfg(test)]
mod players;
#[cfg(test)]
mod refusals;
#[cfg(test)]
mod sequential_cores;
#[cfg(test)]
mod worlds;

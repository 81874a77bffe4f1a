//! A fixed pool of places for C: a place is a number, and threads take and return places without a
//! lock.
//!
//! The exported calls are in `exports`, `places` and `caches`. For C the header `kundratu_pool.h` in
//! `outside/c/include` declares them.
#![tactic(auto)]

pub mod answer;
mod cache;
mod caches;
mod exports;
mod handle;
mod keeping;
mod open;
mod open_cache;
mod open_handle;
mod place;
mod places;
mod raw_box;
mod way;

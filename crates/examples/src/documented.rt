//! The code that doc comments show or `CALLING.md` names, a file for each subject, in tests that run
//! it. `ci/same_code` compares the lines.
//!
//! - [`linear`], [`fixed`], [`lazy`], [`stacks`], [`none`]: the pools, and their reusables.
//! - [`owners`]: an owner of a fixed pool, which pulls in a loop.
//! - [`workers`]: workers of a pool, which keep an item.
//! - [`stack_notes`]: what notes of a spin lock pool know.
//! - [`rejecting`]: a reset that rejects values.
//! - [`recycled`]: the pools of a recyclable type.
//! - [`parts`]: pages, chains, stacks of kept values, and locks.
//! - [`evidence`]: what pulls show, and what is known of a history.
//! - [`cores`]: sequential pools, players, worlds, the engine and the pool of buffers.

mod cores;
mod evidence;
mod fixed;
mod lazy;
mod linear;
mod none;
mod owners;
mod parts;
mod recycled;
mod rejecting;
mod stack_notes;
mod stacks;
mod workers;

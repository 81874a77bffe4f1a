//! Tests of the facade: what goes through kinds of pool, core, player and buffer pool in one way, and
//! what is told of the linear pool, of the fixed pool, and of what makes and resets.
//!
//! `kinds`: what each owns is dropped once, whichever call of `init` refuses and whichever request
//! for memory is refused. `no_memory`: calls that ask for none. `texts`: how each type is shown,
//! compared and hashed. `threads`, `sends`: what goes from thread to thread.
#![tactic(auto)]

#[cfg(test)]
mod assert_equal;
#[cfg(test)]
mod fixed_object_pool;
#[cfg(test)]
mod kinds;
#[cfg(test)]
mod linear_object_pool;
#[cfg(test)]
mod makers;
#[cfg(test)]
mod no_memory;
#[cfg(test)]
mod sends;
#[cfg(test)]
mod texts;
#[cfg(test)]
mod threads;

//! Tests of the fixed pool: rows of commands, by one thread and by several, and games of random
//! commands beside a plain model.
#![tactic(auto)]

#[cfg(test)]
mod cases;
#[cfg(test)]
mod games;
#[cfg(test)]
mod model;
#[cfg(test)]
mod no_memory;
#[cfg(test)]
mod opened;
#[cfg(test)]
mod player;
#[cfg(test)]
mod threads;

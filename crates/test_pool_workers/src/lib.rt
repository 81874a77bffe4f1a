//! Tests of workers: rows of commands, games of random commands beside a plain model, threads, and
//! memory.
#![tactic(auto)]

#[cfg(test)]
mod assert_equal;
#[cfg(test)]
mod cases;
#[cfg(test)]
mod facts;
#[cfg(test)]
mod games;
#[cfg(test)]
mod lifetimes;
#[cfg(test)]
mod memory;
#[cfg(test)]
mod model;
#[cfg(test)]
mod player;
#[cfg(test)]
mod plays;
#[cfg(test)]
mod pools;
#[cfg(test)]
mod sends;
#[cfg(test)]
mod threads;
#[cfg(test)]
mod waiting;

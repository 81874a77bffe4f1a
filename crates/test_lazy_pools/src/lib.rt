//! Tests of pools whose items are made when they are first needed, and of pulls that wait.
#![tactic(auto)]

#[cfg(test)]
mod closing;
#[cfg(test)]
mod closing_threads;
#[cfg(test)]
mod game;
#[cfg(test)]
mod games;
#[cfg(test)]
mod hand;
#[cfg(test)]
mod items;
#[cfg(test)]
mod leavings;
#[cfg(test)]
mod makings;
#[cfg(test)]
mod memory;
#[cfg(test)]
mod plan;
#[cfg(test)]
mod player;
#[cfg(test)]
mod plays;
#[cfg(test)]
mod recycling;
#[cfg(test)]
mod refusals;
#[cfg(test)]
mod sends;
#[cfg(test)]
mod threads;
#[cfg(test)]
mod timed;
#[cfg(test)]
mod times;
#[cfg(test)]
mod wakings;
#[cfg(test)]
mod watch;

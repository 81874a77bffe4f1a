//! What tests of all kinds of pool are written in: rows of commands with their answers, and games of
//! random commands beside a model. Threads play rows too.
#![tactic(auto)]

pub mod dice;
pub mod game;
pub mod refusals;
pub mod row;
pub mod said;
pub mod setting;
#[cfg(test)]
mod tests;
pub mod threads;

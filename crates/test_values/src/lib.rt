//! What tests of the pools share: a tally and the values that it counts, what makes and resets
//! zeros, the sizes to try, asking again, and the most memory that the process had.
#![tactic(auto)]

pub mod counted;
pub mod peak_memory;
pub mod refused;
pub mod sizes;
pub mod tallied;
pub mod tally;
pub mod zeros;

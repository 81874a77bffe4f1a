//! One pool that grows, made of its pages: laws on their legal histories. Each law is the contract
//! of a function that does nothing: proofs call it.
#![tactic(auto)]

pub mod laws;
pub mod two_items;

//! Uses of the pools, as whoever depends on the libraries writes them. Each file can be read alone.
//! Read first:
//!
//! 1. [`replies`]: replies that are put together in buffers of a pool of one page. No reply has
//!    bytes of another.
//! 2. [`palindromes`]: threads with a scratch of a pool each. If they answer, it is what one thread
//!    would answer.
//! 3. [`sessions`]: a table of open sessions. What one session gathered is never seen by a later
//!    one.
//! 4. [`letters`]: messages that go to another thread, and whose room comes home by itself. A
//!    letter holds what its writer put there.
//! 5. [`word_counts`]: threads that count words. Each has a worker of one pool, and so the same
//!    scratch for each line.
//! 6. [`agents`]: agents that pull and return in a world, step by step. Their answers are those of
//!    one pool, by the main theorem.
//!
//! The callers of `CALLING.md`, a page or less each, are in [`calling`], and the code of doc
//! comments in [`documented`].
#![tactic(auto)]

pub mod agents;
#[cfg(test)]
mod assert_equal;
#[cfg(test)]
mod calling;
#[cfg(test)]
mod documented;
#[cfg(test)]
mod home;
pub mod letters;
pub mod palindromes;
pub mod replies;
pub mod sessions;
pub mod word_counts;

//! What a player replies.
use crate::sequential::AttachError;
use pool_parts::PullError;

/// The reply to one command.
///
/// # Examples
///
/// ```rust
/// let reply = player.play(Command::Pull)?; // item 0 is held at index 0
/// assert_eq!(rt; reply, Reply::Pulled(0, Some(0)));
/// ```
#[derive(Debug, PartialEq, Eq, Drop)]
pub enum Reply<T> {
    /// The index of the new holder, and the number of its item if the pool numbers its items.
    Pulled(usize, Option<u128>),
    /// The pool refused a pull, for this cause.
    Refused(PullError),
    Written,
    Returned,
    Forgotten,
    /// The index of the new holder.
    Attached(usize),
    /// The pool refused an attach, for this cause, and the value comes back.
    AttachRefused(AttachError<T>),
    /// The command names an index at which nothing is held. Nothing changed, and the value of a
    /// write is dropped.
    NoSuchHolder,
}

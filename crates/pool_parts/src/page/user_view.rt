//! What one user of a page knows.
use crate::page::history::Operation;
use atomic_table::Seat;
use std::collections::LinkedList;

/// What one user knows of its page. It exists in proofs alone: a seat has no bytes.
pub struct UserView<T> {
    /// The id that the user has taken and not returned.
    pub held: Option<usize>,
    /// The user's number.
    pub user: u64,
    /// The values that the page opened with.
    pub opening: LinkedList<Option<T>>,
    /// The page's operations up to the user's last step, of which the last stands first.
    pub operations: LinkedList<Operation<T>>,
    /// The operations as they were at the user's load.
    pub at_load: LinkedList<Operation<T>>,
    /// Operations that another user knew, which were merged into what this one knows.
    pub merged: LinkedList<Operation<T>>,
    /// Whether the user has retired, and left what it knew to another.
    pub retired: bool,
    /// The user's own operations.
    pub own: LinkedList<Operation<T>>,
    /// How many words the user has read.
    pub loads: u64,
    /// How many bits the user has cleared, or found clear at that.
    pub tries: u64,
    /// The user that was introduced to this one last, and how often that one had met before.
    pub met: Option<(u64, u64)>,
    /// How often this user has met another.
    pub meetings: u64,
}

/// By what a user steps on its page.
pub type UserSeat<T> = Seat<Option<T>, UserView<T>>;

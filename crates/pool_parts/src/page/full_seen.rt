//! What a pull has once it has seen each item of a page in use.
//!
//! Only a pull makes such evidence, and it ends with the pull's pass: `ci/compiler_refuses` tells a
//! change.
use super::slot::PageSlot;
use super::user_view::UserSeat;
use crate::clean::Clean;
use std::marker::Model;

/// One pull, from page to page. It has no bytes.
///
/// The evidence that a page was full borrows it. So the evidence ends with the pull, and says that
/// each item was in use at some moment since the pass was made. It binds no more than that: if a
/// pass is kept, its evidence may be kept too, while items are returned.
///
/// # Examples
///
/// ```rust
/// let pass = PullPass::new();
/// let pulled = match page.try_alloc(&pass)? {
///     Allocated::Slot(mut slot) => {
///         *slot = 5;
///         Some(slot.id())
///     }
///     Allocated::Full(_) => None,
/// };
/// ```
#[derive(Default, Drop)]
pub struct PullPass {
    /// Private, so that only a call makes a pass: a constant could be borrowed for good.
    begun: (),
}

impl PullPass {
    /// Begins a pull.
    ///
    /// # Examples
    ///
    /// ```rust
    /// let pass = PullPass::new();
    /// ```
    pub fn new() -> PullPass {
        PullPass { begun: () }
    }
}

/// The evidence that each item of one page was seen in use since the pass was made: by a word that
/// was read, or by a try of its own bit.
///
/// It borrows its pass, and can't be taken apart: so it can't be kept past the pull, nor be put
/// under a later pass.
///
/// In a clause it is the page, and what its user knows.
///
/// # Examples
///
/// ```rust
/// let pass = PullPass::new();
/// let pulled = match page.try_alloc(&pass)? {
///     Allocated::Slot(mut slot) => {
///         *slot = 5;
///         Some(slot.id())
///     }
///     Allocated::Full(_) => None,
/// };
/// ```
#[derive(Drop)]
pub struct FullSeen<'p, T> {
    pub(super) seat: UserSeat<T>,
    /// Only its lifetime is needed.
    pub(super) pass: &'p PullPass,
}

impl<'p, T> Model for FullSeen<'p, T> {
    ghost use Rattle.pool_parts.specs.Item.{SeenView, SawEachOut};
    ghost use Rattle.pool_parts.specs.Page.{view_of};

    ghost Value = { SeenView T };

    ghost view = { λ seen. record { page = seen.seat.table_id; known = view_of seen.seat } };

    ghost invariant = { λ seen.
        SawEachOut (record { page = seen.seat.table_id; known = view_of seen.seat }) };
}

impl<'p, T> FullSeen<'p, T> {
    /// Returns the pass of the pull that saw the page full.
    pub fn pass(&self) -> &'p PullPass {
        self.pass
    }
}

/// What a page answers to a pull.
///
/// # Examples
///
/// ```rust
/// let pulled = match page.try_alloc(&pass)? {
///     Allocated::Slot(mut slot) => {
///         *slot = 5;
///         Some(slot.id())
///     }
///     Allocated::Full(_) => None,
/// };
/// ```
#[derive(Drop)]
pub enum Allocated<'s, 'p, T, K: Clean<T>> {
    /// An item of the page.
    Slot(PageSlot<'s, T, K>),
    /// No item: each was seen in use.
    Full(FullSeen<'p, T>),
}

/// What a page answered, and what the last step on its word saw.
#[derive(Drop)]
pub struct PageAnswer<'s, 'p, T, K: Clean<T>> {
    pub answer: Allocated<'s, 'p, T, K>,
    /// Whether no item was free after that step. It decides nothing.
    pub left_full: bool,
}

//! What a pull has once it has seen each item of a fixed pool in use.
use pool_parts::page::PullPass;
use pool_parts::page::inside::UserSeat;
use std::marker::Model;

/// The evidence that each item of a fixed pool was seen in use since the pass was made: by a word
/// that was read, or by a try of its own bit.
///
/// It borrows its pass, and can't be taken apart: so it can't be kept past the pull, nor be put
/// under a later pass.
///
/// In a clause it is the pool, and what its user knows.
///
/// # Examples
///
/// ```rust
/// let pass = PullPass::new();
/// match pool.try_pull(&pass) {
///     Ok(item) => Some(item.number()),
///     Err(_busy) => None, // it shows that each item was seen in use
/// }
/// ```
#[derive(Drop)]
pub struct BusySeen<'p, T> {
    pub(super) seat: UserSeat<T>,
    /// Only its lifetime is needed.
    pub(super) pass: &'p PullPass,
}

impl<'p, T> Model for BusySeen<'p, T> {
    ghost use Rattle.pool_parts.specs.Item.{SeenView, SawEachOut};
    ghost use Rattle.pool_parts.specs.Page.{view_of};

    ghost Value = { SeenView T };

    ghost view = { λ seen. record { page = seen.seat.table_id; known = view_of seen.seat } };

    ghost invariant = { λ seen.
        SawEachOut (record { page = seen.seat.table_id; known = view_of seen.seat }) };
}

//! What somebody knows of a page's history while no item is held: a note, which may pull on from
//! there, and a witness.
ghost use Rattle.std.specs.Prelude.{◌≡◌, [], None, false};
ghost use Rattle.pool_parts.specs.Item.{same_holding, same_carrying};

use super::user_view::UserSeat;

/// What some user knew of a page's history, for another to be told by [`Page::tell`]. It has no
/// bytes.
///
/// # Examples
///
/// ```rust
/// let witness = slot.witness(); // knows what the holder knows
/// page.tell(&mut note, witness); // now the note knows it too
/// ```
#[derive(Drop)]
pub struct Witness<T> {
    pub seat: UserSeat<T>,
    ghost carries_none: { seat.me.1 ≡ [] } by { same_carrying T.code _ _ },
}

/// What a user that holds nothing knows of a page's history. It has no bytes.
///
/// [`Page::try_alloc_from`] pulls after all that it knows.
///
/// # Examples
///
/// ```rust
/// let mut note = page.note(); // knows a beginning of the page's history
/// if let Some(mut slot) = page.alloc()? {
///     let witness = slot.witness(); // knows what the holder knows
///     page.tell(&mut note, witness); // now the note knows it too
///     Page::free(slot);
/// }
/// ```
#[derive(Drop)]
pub struct PageNote<T> {
    pub seat: UserSeat<T>,
    ghost here: { seat.me.0.retired ≡ false },
    ghost holds_none: { seat.me.0.held ≡ None } by { same_holding _ _ },
    ghost carries_none: { seat.me.1 ≡ [] } by { same_carrying T.code _ _ },
}

/// How an item came back.
#[derive(Drop)]
pub struct Returned<T> {
    /// What the user that had it knows.
    pub note: PageNote<T>,
    /// Whether no item of its page was free before.
    pub was_full: bool,
}

impl<T> PageNote<T> {
    ghost use Rattle.pool_parts.specs.Page.{view_of};

    /// Returns what the note knows, for another to be told.
    pub fn into_witness(self) -> Witness<T>
        ensures page { result.seat.table_id ≡ self.seat.table_id }
        ensures history { (view_of result.seat).operations ≡ (view_of self.seat).operations }
    {
        let PageNote { seat } = self;
        Witness { seat }
    }
}

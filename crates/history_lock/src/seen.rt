//! What somebody knows of a lock who doesn't hold it.
ghost use Rattle.std.specs.Prelude.{◌≡◌, [], false};
ghost use Rattle.history_lock.specs.LockRule.{IsPassing, history_of};

use crate::rule::Visitor;
use atomic_table::{Badge, Seat};
use std::marker::Model;

/// The operations of a lock up to some moment. It has no bytes.
///
/// In a clause it is which lock it is of, and these operations, of which the last stands first.
pub struct Seen<E> {
    pub(crate) badge: Badge<Visitor<E>>,
}

impl<E> Model for Seen<E> {
    ghost use Rattle.history_lock.specs.History.{Known};
    ghost use Rattle.history_lock.specs.LockRule.{IsPassing, history_of};

    ghost Value = { Known E };

    ghost view = { λ seen.
        record { table = seen.badge.table_id; history = history_of seen.badge.views } };

    ghost invariant = { λ seen. IsPassing seen.badge.views };
}

impl<E> Seen<E> {
    /// Returns the visitor that knows this.
    pub(crate) fn into_seat<T>(self) -> Seat<Option<T>, Visitor<E>>
        ensures table { result.table_id ≡ self.table }
        ensures history { result.me.0.history ≡ self.history }
        ensures passing { (result.me.0.holds ≡ false) × (result.me.1 ≡ []) }
    {
        self.into_badge().into_seat()
    }

    /// Returns what a visitor knows that holds nothing, by its badge.
    pub fn of_badge(badge: Badge<Visitor<E>>) -> Seen<E>
        requires { IsPassing badge.views }
        ensures { result ≡ record { table = badge.table_id; history = history_of badge.views } }
    {
        Seen { badge }
    }

    /// Returns the badge of the visitor that knows this, for a type that has facts of its own on it.
    pub fn into_badge(self) -> Badge<Visitor<E>>
        ensures table { result.table_id ≡ self.table }
        ensures history { history_of result.views ≡ self.history }
        ensures passing { IsPassing result.views }
    {
        let Seen { badge } = self;
        badge
    }
}

impl<E> Drop for Seen<E> {
    fn drop(self) {
        let Seen { badge: _ } = self;
    }
}

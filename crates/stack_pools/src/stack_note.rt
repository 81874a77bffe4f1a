//! What is known of a stack pool's history.
ghost use Rattle.std.specs.Prelude.{◌≡◌, Some};
ghost use Rattle.history_lock.specs.History.{Known};
ghost use Rattle.stack_pools.specs.StackHistory.{IsLegal};
ghost use Rattle.stack_pools.specs.declared.operation.Operation.{Operation};

use crate::operation::Operation;
use atomic_table::Badge;
use history_lock::{Seen, Visitor};
use std::marker::Model;

/// What is known of a stack pool's history up to some moment. It has no bytes. Of a mutex pool it
/// knows nothing.
///
/// In a clause it is a legal history and which lock it is of, or `None`.
///
/// # Examples
///
/// ```rust
/// let note = pool.pull(&rt)?.give_back();
/// let item = pool.pull_after(&rt, note)?; // comes after all that the note knew
/// ```
pub struct StackNote<T> {
    /// Blank if the note knows nothing.
    pub(crate) badge: Badge<Visitor<Operation<T>>>,
}

impl<T> Model for StackNote<T> {
    ghost use Rattle.std.specs.Prelude.{Option, IfSome};
    ghost use Rattle.history_lock.specs.History.{Known};
    ghost use Rattle.history_lock.specs.LockRule.{IsPassingAtMost, known_by};
    ghost use Rattle.stack_pools.specs.StackHistory.{IsLegal};
    ghost use Rattle.stack_pools.specs.declared.operation.Operation.{Operation};

    ghost Value = { Option (Known (Operation T)) };

    ghost view = { λ note. known_by note.badge.table_id note.badge.views };

    ghost invariant = { λ note.
        IsPassingAtMost note.badge.views
        × IfSome (known_by note.badge.table_id note.badge.views) (λ known. IsLegal known.history) };
}

impl<T> StackNote<T> {
    /// Returns a note of what was seen.
    pub(crate) fn of(seen: Seen<Operation<T>>) -> StackNote<T>
        requires { IsLegal seen.history }
        ensures { result ≡ Some seen }
    {
        StackNote {
            badge: seen.into_badge(),
        }
    }

    /// Returns what was seen.
    pub(crate) fn into_seen(self) -> Seen<Operation<T>>
        requires { (known : Known (Operation T)) × (self ≡ Some known) }
        ensures { self ≡ Some result }
    {
        let StackNote { badge } = self;
        Seen::of_badge(badge)
    }
}

impl<T> Drop for StackNote<T> {
    fn drop(self) {
        let StackNote { badge: _ } = self;
    }
}

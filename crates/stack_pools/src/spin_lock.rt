//! A lock that tries again until it has the value, and lets other threads run in between.
//!
//! It is a lock with a history of which nothing is asked. The guard has the value itself. Its drop
//! puts the value back before it frees the lock. A holder that stops keeps all others waiting.
ghost use Rattle.std.specs.Prelude.{◌≡◌, IfErr, IfSome};

use history_lock::{HistoryLock, Turn};
use std::alloc::Global;
use std::fmt::{self, Debug, Formatter, Write};
use std::marker::Model;
use std::ops::{Deref, DerefMut};
use std::sync::Wait;
use unrecorded::{NoLaw, Unrecorded};

mod unrecorded;

/// A lock round a value, which one guard at a time has.
///
/// In a clause it is the table in which the value lies.
///
/// # Examples
///
/// ```rust
/// let lock = SpinLock::new(alloc, 5)?;
/// *lock.lock(&rt) = 6; // the guard's drop frees the lock
/// ```
pub struct SpinLock<T> {
    lock: HistoryLock<T, (), NoLaw>,
}

impl<T: Drop> Drop for SpinLock<T> {
    fn drop(self) {
        let SpinLock { lock: _ } = self;
    }
}

impl<T> Model for SpinLock<T> {
    ghost use Rattle.atomic_table.specs.Seated.{TableId};

    ghost Value = { TableId };

    ghost view = { λ lock. lock.lock };
}

impl<T: Drop> SpinLock<T> {
    /// Creates a free lock with this value in it.
    ///
    /// # Errors
    ///
    /// The value, if there is no memory for the lock.
    ///
    /// # Examples
    ///
    /// ```rust
    /// let lock = SpinLock::new(alloc, 5)?;
    /// ```
    pub fn new(alloc: Global, value: T) -> Result<SpinLock<T>, T>
        ensures refused { IfErr result (λ back. back ≡ value) }
    {
        let lock = HistoryLock::new(alloc, value)?;
        Ok(SpinLock { lock })
    }

    /// Takes the lock, and waits while another guard has it. A guard that leaks keeps the lock
    /// taken for good.
    pub fn lock<W: Wait>(&self, rt: &W) -> SpinLockGuard<'_, T>
        ensures { result.lock ≡ self.now }
    {
        let (value, turn) = self.lock.lock(rt);
        SpinLockGuard { turn, value }
    }

    /// Takes the lock if it is free at this moment.
    pub fn try_lock(&self) -> Option<SpinLockGuard<'_, T>>
        ensures { IfSome result (λ guard. guard.lock ≡ self.now) }
    {
        let (value, turn) = self.lock.try_lock()?;
        Some(SpinLockGuard { turn, value })
    }
}

/// The value of a lock. Its drop puts the value back and frees the lock.
///
/// In a clause it is the lock and the value.
///
/// # Examples
///
/// ```rust
/// *lock.lock(&rt) = 6; // the guard's drop frees the lock
/// assert_eq!(rt; *lock.lock(&rt), 6);
/// ```
pub struct SpinLockGuard<'s, T> {
    turn: Turn<'s, T, (), NoLaw>,
    value: T,
}

impl<'s, T> Model for SpinLockGuard<'s, T> {
    ghost use Rattle.stack_pools.specs.StackPool.{GuardView};

    ghost Value = { GuardView T };

    ghost view = { λ guard. record { lock = guard.turn.table; value = guard.value } };
}

impl<T> Deref for SpinLockGuard<'_, T> {
    type Target = T;

    ghost deref_gives = { λ guard shown. shown ≡ guard.value };

    fn deref(&self) -> &T {
        &self.value
    }
}

impl<T> DerefMut for SpinLockGuard<'_, T> {
    ghost use mir.Syntax.{named};
    ghost use Rattle.std.specs.Prelude.{[]};
    ghost use Rattle.std.specs.Borrow.{Lends, sem};
    ghost use Rattle.stack_pools.specs.contracts.spin_lock.SpinLockGuard.{the_row};

    ghost deref_mut_gives = { λ guard shown. shown ≡ guard.value };

    fn deref_mut(&mut self) -> &mut T
        ensures* writes_back { sem 𝓛 (Lends (the_row (record { mir = named 1; lft = [] }) T.row) T.row
            self.entry result (λ value. record self.old { value = value })) }
        ensures shows { result.now ≡ self.old.value }
    {
        &mut self.value
    }
}

impl<T> Drop for SpinLockGuard<'_, T> {
    fn drop(self) {
        let Self { turn, value } = self;
        drop(turn.release::<Unrecorded>(value));
    }
}

impl<T: Debug> Debug for SpinLockGuard<'_, T> {
    ghost debug_output = { λ guard. T.debug_output guard.value };

    fn fmt<W: Write>(&self, f: &mut Formatter<W>) -> fmt::Result {
        Debug::fmt(&self.value, f)
    }
}

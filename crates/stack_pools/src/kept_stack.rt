//! A stack of kept values under a spin lock, with one legal history.
ghost use Rattle.std.specs.Prelude.{◌≡◌, Some, IfSome, ◌⊎◌};
ghost use Rattle.history_lock.specs.History.{IsPrefixOf};
ghost use Rattle.stack_pools.specs.Sections.{Leaves};
ghost use Rattle.stack_pools.specs.StackHistory.{IsNoteOf, GoesOn, IsTake, KeptLast};

use crate::free_list::FreeList;
use crate::operation::Operation;
use crate::stack_note::StackNote;
use history_lock::{HistoryLock, Turn};
use kept_values::stack::{Room, Stack};
use pool_parts::clean::Clean;
use sections::{Clears, Counts, Keeps, LastKept, Takes};
use std::alloc::Global;
use std::marker::Model;
use std::sync::Wait;

pub mod sections;

/// The right to bring back a stack that was taken out of its lock.
pub type StackTurn<'s, T, K> = Turn<'s, Stack<T, K>, Operation<T>, LastKept>;

/// A stack of kept values under a spin lock. Its operations are one legal history, under every
/// interleaving.
///
/// In a clause it is the table in which the stack lies.
pub struct KeptStack<T, K: Clean<T>> {
    lock: HistoryLock<Stack<T, K>, Operation<T>, LastKept>,
}

impl<T, K: Clean<T>> Model for KeptStack<T, K> {
    ghost use Rattle.atomic_table.specs.Seated.{TableId};

    ghost Value = { TableId };

    ghost view = { λ list. list.lock };
}

impl<T: Drop, K: Clean<T>> Drop for KeptStack<T, K> {
    fn drop(self) {
        let KeptStack { lock: _ } = self;
    }
}

impl<T: Drop, K: Clean<T>> KeptStack<T, K> {
    /// Creates a stack that keeps nothing, or returns `None` if there is no memory for its lock.
    pub fn new(alloc: Global) -> Option<KeptStack<T, K>> {
        let lock = HistoryLock::new(alloc, Stack::new()).ok()?;
        Some(KeptStack { lock })
    }

    /// Takes the lock, and waits while another has it. The stack comes back with one operation
    /// more, by the turn's release.
    pub fn lock<W: Wait>(&self, rt: &W) -> (Stack<T, K>, StackTurn<'_, T, K>)
        ensures of { result.1.table ≡ self.now }
        ensures left { Leaves result.1.history result.0 }
    {
        self.lock.lock(rt)
    }

    /// Adds to what one note knows what another knows: of the two histories one is a prefix of the
    /// other.
    pub fn learn(&self, note: StackNote<T>, other: StackNote<T>) -> StackNote<T>
        requires of { IsNoteOf (Some self.now) note }
        requires other_of { IsNoteOf (Some self.now) other }
        ensures of { IsNoteOf (Some self.now) result }
        ensures after { GoesOn note result }
        ensures after_other { GoesOn other result }
        ensures one { GoesOn note other ⊎ GoesOn other note }
    {
        StackNote::of(self.lock.learn(note.into_seen(), other.into_seen()))
    }
}

impl<T: Drop, K: Clean<T>> FreeList<T, K> for KeptStack<T, K> {
    ghost use Rattle.std.specs.Prelude.{Some};

    ghost lock = { λ list. Some list };

    fn note(&self) -> StackNote<T> {
        StackNote::of(self.lock.see())
    }

    #[inline(always)]
    fn take<W: Wait>(&self, rt: &W) -> (Option<(T, Room<T>)>, StackNote<T>) {
        let (stack, turn) = self.lock.lock(rt);
        taken(stack, turn)
    }

    fn take_after<W: Wait>(
        &self,
        rt: &W,
        note: StackNote<T>,
    ) -> (Option<(T, Room<T>)>, StackNote<T>)
        requires { IsNoteOf (Some self.now) note }
        ensures clean { IfSome result.0 (λ taken. K.meets taken.0) }
        ensures of { IsNoteOf (Some self.now) result.1 }
        ensures after { GoesOn note result.1 }
        ensures pulled { IsTake result.0 result.1 }
    {
        let (stack, turn) = self.lock.lock_after(rt, note.into_seen());
        taken(stack, turn)
    }

    fn give<W: Wait>(&self, rt: &W, note: StackNote<T>, room: Room<T>, value: T) -> StackNote<T>
        requires of { IsNoteOf (Some self.now) note }
        requires meets { K.meets value }
        ensures of { IsNoteOf (Some self.now) result }
        ensures after { GoesOn note result }
        ensures kept { IfSome result (λ known. KeptLast known.history value) }
    {
        let (mut stack, turn) = self.lock.lock_after(rt, note.into_seen());
        stack.put(room, value);
        StackNote::of(turn.release::<Keeps>(stack))
    }

    fn count<W: Wait>(&self, rt: &W) -> (usize, StackNote<T>) {
        let (stack, turn) = self.lock.lock(rt);
        let count = stack.kept();
        (count, StackNote::of(turn.release::<Counts>(stack)))
    }

    fn clear<W: Wait>(&self, rt: &W) -> StackNote<T> {
        let (stack, turn) = self.lock.lock(rt);
        let seen = turn.release::<Clears>(Stack::new());
        drop(stack);
        StackNote::of(seen)
    }
}

/// Takes the value that was kept last out of a stack, and frees its lock.
#[inline(always)]
fn taken<T: Drop, K: Clean<T>>(
    mut stack: Stack<T, K>,
    turn: StackTurn<'_, T, K>,
) -> (Option<(T, Room<T>)>, StackNote<T>)
    requires { Leaves turn.history stack }
    ensures clean { IfSome result.0 (λ taken. K.meets taken.0) }
    ensures of { IsNoteOf (Some turn.entry.table) result.1 }
    ensures after { IfSome result.1 (λ known. IsPrefixOf turn.entry.history known.history) }
    ensures pulled { IsTake result.0 result.1 }
{
    let taken = stack.take();
    (taken, StackNote::of(turn.release::<Takes>(stack)))
}

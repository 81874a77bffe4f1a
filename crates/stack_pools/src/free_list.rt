//! What a stack pool asks of its list of kept values, which threads share; and the mutex pool's.
ghost use Rattle.std.specs.Prelude.{◌≡◌, None, IfSome, length, min};
ghost use Rattle.stack_pools.specs.StackHistory.{IsNoteOf, GoesOn, IsTake, KeptLast, WasCleared, kept_by};

use crate::stack_note::StackNote;
use atomic_table::Badge;
use kept_values::stack::{Room, Stack};
use pool_parts::clean::Clean;
use std::mem;
use std::sync::{Mutex, Wait};

/// A list of kept values. Each meets `K` and lies in the room that came with it. The calls may wait
/// for other threads.
///
/// A list may have one sequential history of its operations. Then each call says, by a note, what
/// it added to that history.
pub trait FreeList<T, K: Clean<T>>: Drop {
    ghost use Rattle.std.specs.Prelude.{Option};
    ghost use Rattle.atomic_table.specs.Seated.{TableId};

    /// The lock under which the list lies, if it has a history.
    ghost lock: { Self → Option TableId };

    /// Returns what the list's operations are at a moment of this call. It costs a load at most.
    fn note(&self) -> StackNote<T>
        ensures { IsNoteOf (lock self.now) result };

    /// Takes a kept value with its room, or returns `None` if nothing is kept. The two lists of
    /// this crate take the value that was given last.
    fn take<W: Wait>(&self, rt: &W) -> (Option<(T, Room<T>)>, StackNote<T>)
        ensures clean { IfSome result.0 (λ taken. K.meets taken.0) }
        ensures of { IsNoteOf (lock self.now) result.1 }
        ensures pulled { IsTake result.0 result.1 };

    /// Takes a kept value with its room, or returns `None` if nothing is kept, after all that a
    /// note knows.
    fn take_after<W: Wait>(
        &self,
        rt: &W,
        note: StackNote<T>,
    ) -> (Option<(T, Room<T>)>, StackNote<T>)
        requires { IsNoteOf (lock self.now) note }
        ensures clean { IfSome result.0 (λ taken. K.meets taken.0) }
        ensures of { IsNoteOf (lock self.now) result.1 }
        ensures after { GoesOn note result.1 }
        ensures pulled { IsTake result.0 result.1 };

    /// Keeps a value in an empty room, after all that a note knows. The two lists of this crate
    /// need no memory for it.
    fn give<W: Wait>(&self, rt: &W, note: StackNote<T>, room: Room<T>, value: T) -> StackNote<T>
        requires of { IsNoteOf (lock self.now) note }
        requires meets { K.meets value }
        ensures of { IsNoteOf (lock self.now) result }
        ensures after { GoesOn note result }
        ensures kept { IfSome result (λ known. KeptLast known.history value) };

    /// Counts the values that are kept at this moment, up to `usize::MAX`. The two lists of this
    /// crate count them under the lock.
    fn count<W: Wait>(&self, rt: &W) -> (usize, StackNote<T>)
        ensures of { IsNoteOf (lock self.now) result.1 }
        ensures count { IfSome result.1 (λ known.
            result.0 ≡ min (length (kept_by known.history)) usize.MAX) };

    /// Drops all values that are kept, with their rooms. The two lists of this crate drop them
    /// without the lock.
    fn clear<W: Wait>(&self, rt: &W) -> StackNote<T>
        ensures of { IsNoteOf (lock self.now) result }
        ensures cleared { IfSome result (λ known. WasCleared known.history) };
}

/// The list of a mutex pool. It has no history: std's mutex keeps none.
impl<T: Drop, K: Clean<T>> FreeList<T, K> for Mutex<Stack<T, K>> {
    ghost use Rattle.std.specs.Prelude.{None};

    ghost lock = { λ _. None };

    fn note(&self) -> StackNote<T> {
        StackNote {
            badge: Badge::blank(),
        }
    }

    #[inline(always)]
    fn take<W: Wait>(&self, rt: &W) -> (Option<(T, Room<T>)>, StackNote<T>) {
        let nothing = StackNote {
            badge: Badge::blank(),
        };
        (self.lock(rt).take(), nothing)
    }

    fn take_after<W: Wait>(
        &self,
        rt: &W,
        note: StackNote<T>,
    ) -> (Option<(T, Room<T>)>, StackNote<T>)
        requires { IsNoteOf None note }
        ensures clean { IfSome result.0 (λ taken. K.meets taken.0) }
        ensures of { IsNoteOf None result.1 }
        ensures after { GoesOn note result.1 }
        ensures pulled { IsTake result.0 result.1 }
    {
        (self.lock(rt).take(), note)
    }

    fn give<W: Wait>(&self, rt: &W, note: StackNote<T>, room: Room<T>, value: T) -> StackNote<T>
        requires of { IsNoteOf None note }
        requires meets { K.meets value }
        ensures of { IsNoteOf None result }
        ensures after { GoesOn note result }
        ensures kept { IfSome result (λ known. KeptLast known.history value) }
    {
        self.lock(rt).put(room, value);
        note
    }

    fn count<W: Wait>(&self, rt: &W) -> (usize, StackNote<T>) {
        (self.lock(rt).kept(), self.note())
    }

    fn clear<W: Wait>(&self, rt: &W) -> StackNote<T> {
        let kept = mem::replace(&mut *self.lock(rt), Stack::new());
        drop(kept);
        self.note()
    }
}

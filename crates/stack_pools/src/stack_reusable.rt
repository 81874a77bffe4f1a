//! A value that was pulled from a stack pool or attached to it, with a borrow or an owner of the
//! pool.
ghost use Rattle.std.specs.Prelude.{◌≡◌, IfOk, IfErr, ⊤};
ghost use Rattle.stack_pools.specs.StackHistory.{IsNoteOf, IsGivenBack};

use crate::free_list::FreeList;
use crate::stack_note::StackNote;
use crate::stack_object_pool::StackObjectPool;
use kept_values::stack::Room;
use pool_parts::PullError;
use pool_parts::clean::Clean;
use pool_parts::closures::{Init, Reset};
use pool_parts::made_or_reset::MadeOrReset;
use std::fmt::{self, Debug, Formatter, Write};
use std::marker::Model;
use std::ops::{Deref, DerefMut};
use std::sync::{Arc, Wait};

/// A stack pool as a reusable has it: by a borrow or with an owner.
pub trait SharedStackPool<T>: Drop {
    ghost use Rattle.std.specs.Prelude.{Option};
    ghost use Rattle.atomic_table.specs.Seated.{TableId};
    ghost use Rattle.pool_parts.specs.Answers.{Refuses};
    ghost use Rattle.stack_pools.specs.StackHistory.{IsNoteOf, IsGivenBack};

    /// The lock under which its list lies, if that has a history.
    ghost lock: { Self → Option TableId };

    /// The values that its reset may leave: the old one, then the new one.
    ghost leaves: { Self → T → T → Type 0 };

    /// The values that its reset may reject.
    ghost rejects: { Self → T → Type 0 };

    /// Makes a room for the return of a value.
    ///
    /// # Errors
    ///
    /// `Memory` if there is no memory for it.
    fn room(&self) -> Result<Room<T>, PullError>
        ensures refused { IfErr result (Refuses ⊤ ⊥ ⊥) };

    /// Returns a note of what the pool's operations are at a moment of this call.
    fn note(&self) -> StackNote<T>
        ensures { IsNoteOf (lock self.now) result };

    /// Resets a value and keeps it, after all that a note knows. If the reset rejects the value,
    /// drops it and its room, without the lock. It takes no memory besides what the reset takes.
    fn give<W: Wait>(&self, rt: &W, note: StackNote<T>, room: Room<T>, value: T) -> StackNote<T>
        requires { IsNoteOf (lock self.now) note }
        ensures of { IsNoteOf (lock self.now) result }
        ensures given_back { IsGivenBack (leaves self.now) (rejects self.now) value note result };
}

impl<
    T: Drop,
    I: Init<T, K>,
    R: Reset<T, K>,
    K: Clean<T>,
    F: FreeList<T, MadeOrReset<I, R, K>>,
> SharedStackPool<T> for &StackObjectPool<T, I, R, K, F> {
    ghost use Rattle.stack_pools.specs.StackPool.{stack_view};

    ghost lock = { λ pool. F.lock (stack_view pool.now).list };

    ghost leaves = { λ pool. R.leaves (stack_view pool.now).reset };

    ghost rejects = { λ pool. R.rejects (stack_view pool.now).reset };

    fn room(&self) -> Result<Room<T>, PullError> {
        (**self).room()
    }

    fn note(&self) -> StackNote<T> {
        (**self).note()
    }

    fn give<W: Wait>(&self, rt: &W, note: StackNote<T>, room: Room<T>, value: T) -> StackNote<T>
        requires { IsNoteOf (F.lock (stack_view self.now.now).list) note }
        ensures of { IsNoteOf (F.lock (stack_view self.now.now).list) result }
        ensures given_back { IsGivenBack (R.leaves (stack_view self.now.now).reset)
            (R.rejects (stack_view self.now.now).reset) value note result }
    {
        match self.reset.try_reset(value) {
            Some(left) => self.kept.give(rt, note, room, left),
            None => note,
        }
    }
}

impl<
    T: Drop,
    I: Init<T, K>,
    R: Reset<T, K>,
    K: Clean<T>,
    F: FreeList<T, MadeOrReset<I, R, K>>,
> SharedStackPool<T> for Arc<StackObjectPool<T, I, R, K, F>> {
    ghost use Rattle.std.specs.Arc.{arc_value};
    ghost use Rattle.stack_pools.specs.StackPool.{stack_view};

    ghost lock = { λ pool. F.lock (stack_view (arc_value pool)).list };

    ghost leaves = { λ pool. R.leaves (stack_view (arc_value pool)).reset };

    ghost rejects = { λ pool. R.rejects (stack_view (arc_value pool)).reset };

    fn room(&self) -> Result<Room<T>, PullError> {
        (**self).room()
    }

    fn note(&self) -> StackNote<T> {
        (**self).note()
    }

    fn give<W: Wait>(&self, rt: &W, note: StackNote<T>, room: Room<T>, value: T) -> StackNote<T>
        requires { IsNoteOf (F.lock (stack_view (arc_value self.now)).list) note }
        ensures of { IsNoteOf (F.lock (stack_view (arc_value self.now)).list) result }
        ensures given_back { IsGivenBack (R.leaves (stack_view (arc_value self.now)).reset)
            (R.rejects (stack_view (arc_value self.now)).reset) value note result }
    {
        match (**self).reset.try_reset(value) {
            Some(left) => (**self).kept.give(rt, note, room, left),
            None => note,
        }
    }
}

/// The permission to wait for the lock of a pool, which a reusable keeps for its drop.
///
/// Each permission that can be copied is one. A reusable requires no more of it, so only its return
/// can wait.
pub trait ReturnPermission<T, P: SharedStackPool<T>>: Copy + Drop {
    ghost use Rattle.stack_pools.specs.StackHistory.{IsNoteOf, IsGivenBack};

    /// Returns a value to its pool.
    fn give_to(&self, pool: &P, note: StackNote<T>, room: Room<T>, value: T) -> StackNote<T>
        requires { IsNoteOf (P.lock pool.now) note }
        ensures of { IsNoteOf (P.lock pool.now) result }
        ensures given_back { IsGivenBack (P.leaves pool.now) (P.rejects pool.now) value note
            result };
}

impl<T: Drop, P: SharedStackPool<T>, W: Wait + Copy> ReturnPermission<T, P> for W {
    #[inline(always)]
    fn give_to(&self, pool: &P, note: StackNote<T>, room: Room<T>, value: T) -> StackNote<T>
        requires { IsNoteOf (P.lock pool.now) note }
        ensures of { IsNoteOf (P.lock pool.now) result }
        ensures given_back { IsGivenBack (P.leaves pool.now) (P.rejects pool.now) value note
            result }
    {
        pool.give(self, note, room, value)
    }
}

/// A value with the room for its return. Its drop resets the value, waits for the pool's lock and
/// returns the value to the pool. So does `give_back`; no other call of it waits.
///
/// In a clause it is the pool, the value, and what is known of the pool's history up to the pull or
/// the attachment.
///
/// # Examples
///
/// ```rust
/// let item = pool.pull(&rt)?;
/// assert_eq!(rt; item.detach(), 5); // the value is out of the pool for good
/// ```
pub struct StackReusable<T: Drop, P: SharedStackPool<T>, W: ReturnPermission<T, P>> {
    pub(crate) pool: P,
    pub(crate) rt: W,
    pub(crate) note: StackNote<T>,
    pub(crate) room: Room<T>,
    pub(crate) value: T,
}

impl<T: Drop, P: SharedStackPool<T>, W: ReturnPermission<T, P>> Model for StackReusable<T, P, W> {
    ghost use Rattle.stack_pools.specs.StackHistory.{IsNoteOf, StackItemView};

    ghost Value = { StackItemView P T };

    ghost view = { λ reusable.
        record { pool = reusable.pool; value = reusable.value; known = reusable.note } };

    ghost invariant = { λ reusable. IsNoteOf (P.lock reusable.pool) reusable.note };
}

impl<T: Drop, P: SharedStackPool<T>, W: ReturnPermission<T, P>> StackReusable<T, P, W> {
    ghost use Rattle.std.specs.Prelude.{MatchResult};

    /// Attaches a value to a pool, as an item that `init` never made. It is no operation on what
    /// the pool keeps: its return is.
    ///
    /// # Errors
    ///
    /// The value, if there is no memory for the room of its return. The borrow or the owner of the
    /// pool is dropped.
    ///
    /// # Examples
    ///
    /// ```rust
    /// let item = MutexReusable::new(&rt, &pool, 5)?; // its drop gives the pool a value
    /// ```
    pub fn new(rt: &W, pool: P, value: T) -> Result<StackReusable<T, P, W>, T>
        ensures pool { IfOk result (λ item. item.pool ≡ pool) }
        ensures attached { MatchResult result (λ item. item.value ≡ value) (λ back. back ≡ value) }
    {
        match pool.room() {
            Ok(room) => {
                let note = pool.note();
                Ok(StackReusable {
                    pool,
                    rt: *rt,
                    note,
                    room,
                    value,
                })
            }
            Err(_) => Err(value),
        }
    }

    /// Takes the value out of its pool for good. No reset runs, and it is no operation on what the
    /// pool keeps. Its room is dropped, and so is an owner of the pool.
    pub fn detach(self) -> T
        ensures { result ≡ self.value }
    {
        let StackReusable {
            pool: _,
            rt: _,
            note: _,
            room: _,
            value,
        } = self;
        value
    }

    /// Resets the value, waits for the pool's lock and returns the value to the pool. If the reset
    /// rejects it, it is dropped instead. The note knows the pool's history up to this return.
    // Inlined, so that the value isn't passed on through memory.
    #[inline(always)]
    pub fn give_back(self) -> StackNote<T>
        ensures of { IsNoteOf (P.lock self.pool) result }
        ensures given_back { IsGivenBack (P.leaves self.pool) (P.rejects self.pool) self.value
            self.known result }
    {
        let StackReusable {
            pool,
            rt,
            note,
            room,
            value,
        } = self;
        rt.give_to(&pool, note, room, value)
    }
}

impl<T: Drop, P: SharedStackPool<T>, W: ReturnPermission<T, P>> Deref for StackReusable<T, P, W> {
    type Target = T;

    ghost deref_gives = { λ reusable value. value ≡ reusable.value };

    fn deref(&self) -> &T {
        &self.value
    }
}

impl<T: Drop, P: SharedStackPool<T>, W: ReturnPermission<T, P>> DerefMut
    for StackReusable<T, P, W> {
    ghost use Rattle.std.specs.Borrow.{Lends, sem};
    ghost use Rattle.stack_pools.specs.contracts.stack_reusable.StackReusable.{the_row};

    ghost deref_mut_gives = { λ reusable value. value ≡ reusable.value };

    fn deref_mut(&mut self) -> &mut T
        ensures* writes_back { sem 𝓛 (Lends (the_row T.row P.row W.row P.SharedStackPool) T.row
            self.entry result (λ value. record self.old { value = value })) }
        ensures shows { result.now ≡ self.old.value }
    {
        &mut self.value
    }
}

impl<T: Drop, P: SharedStackPool<T>, W: ReturnPermission<T, P>> Drop for StackReusable<T, P, W> {
    // Inlined, so that the value isn't passed on through memory.
    #[inline(always)]
    fn drop(self) {
        self.give_back();
    }
}

impl<T: Debug + Drop, P: SharedStackPool<T>, W: ReturnPermission<T, P>> Debug
    for StackReusable<T, P, W> {
    ghost debug_output = { λ reusable. T.debug_output reusable.value };

    fn fmt<O: Write>(&self, f: &mut Formatter<O>) -> fmt::Result {
        Debug::fmt(&self.value, f)
    }
}

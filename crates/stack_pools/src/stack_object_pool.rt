//! A pool over a free list, which is a stack under a lock.
//!
//! A pull takes the value that was returned last, or makes one if none is kept. Pulls and returns
//! wait for the lock.
ghost use Rattle.std.specs.Prelude.{◌≡◌, None, Some, IfOk, IfErr, IfSome, ⊤};
ghost use Rattle.std.specs.Arc.{arc_value};
ghost use Rattle.stack_pools.specs.StackHistory.{IsNoteOf, GoesOn, IsTake};

use crate::free_list::FreeList;
use crate::stack_note::StackNote;
use crate::stack_reusable::{ReturnPermission, SharedStackPool, StackReusable};
use kept_values::stack::Room;
use pool_parts::PullError;
use pool_parts::clean::Clean;
use pool_parts::closures::{Init, Reset};
use pool_parts::made_or_reset::MadeOrReset;
use std::alloc::Global;
use std::marker::PhantomData;
use std::sync::{Arc, Mutex, Wait};

/// A pool that keeps returned values in the free list `F`.
///
/// Its two kinds are [`MutexObjectPool`](crate::MutexObjectPool) and
/// [`SpinLockObjectPool`](crate::SpinLockObjectPool).
///
/// # Examples
///
/// ```rust
/// let pool: MutexObjectPool<u32, _, _> = MutexObjectPool::new(alloc, Copied::new(0), Keep);
/// *pool.pull(&rt)? = 5; // its drop keeps it
/// assert_eq!(rt; *pool.pull(&rt)?, 5);
/// ```
pub struct StackObjectPool<
    T,
    I: Init<T, K>,
    R: Reset<T, K>,
    K: Clean<T>,
    F: FreeList<T, MadeOrReset<I, R, K>>,
> {
    alloc: Global,
    init: I,
    pub(crate) reset: R,
    pub(crate) kept: F,
    marker: PhantomData<(Mutex<T>, Mutex<K>)>,
}

impl<T, I: Init<T, K>, R: Reset<T, K>, K: Clean<T>, F: FreeList<T, MadeOrReset<I, R, K>>> Drop
    for StackObjectPool<T, I, R, K, F> {
    fn drop(self) {
        let StackObjectPool {
            alloc: _,
            init: _,
            reset: _,
            kept: _,
            marker: _,
        } = self;
    }
}

impl<
    T: Drop,
    I: Init<T, K>,
    R: Reset<T, K>,
    K: Clean<T>,
    F: FreeList<T, MadeOrReset<I, R, K>>,
> StackObjectPool<T, I, R, K, F> {
    ghost use Rattle.pool_parts.specs.Answers.{IsMadeOrReset, Refuses};
    ghost use Rattle.stack_pools.specs.StackPool.{stack_view, Pulls};

    /// Creates a pool over this list.
    pub(crate) fn over(alloc: Global, init: I, reset: R, kept: F) -> StackObjectPool<T, I, R, K, F>
        ensures init { (stack_view result).init ≡ init }
        ensures reset { (stack_view result).reset ≡ reset }
    {
        StackObjectPool {
            alloc,
            init,
            reset,
            kept,
            marker: PhantomData,
        }
    }

    /// Pulls the value that was kept last, or makes one if none is kept. `init` runs without the
    /// lock.
    ///
    /// # Errors
    ///
    /// Only if no value is kept:
    ///
    /// - `Memory` if there is no memory for the room of its return. Then `init` isn't called.
    /// - `Init` if `init` returned `None`.
    pub fn pull<W: Wait + Copy>(&self, rt: &W) -> Result<StackReusable<T, &Self, W>, PullError>
        ensures pool { IfOk result (λ item. item.pool.now ≡ self.now) }
        ensures pulled { IfOk result (λ item.
            Pulls K.meets I.answers R.leaves (stack_view self.now).init item.value item.known) }
        ensures refused { IfErr result (Refuses ⊤ (I.answers (stack_view self.now).init None) ⊥) }
    {
        let (kept, note) = self.kept.take(rt);
        self.reusable(self, *rt, kept, note)
    }

    /// Pulls a value after all that a note knows: the one that was kept last, or a new one if none
    /// is kept.
    ///
    /// # Errors
    ///
    /// `Memory` and `Init` if no value is kept. Then the note is dropped.
    ///
    /// # Examples
    ///
    /// ```rust
    /// let note = pool.pull(&rt)?.give_back();
    /// let item = pool.pull_after(&rt, note)?; // comes after all that the note knew
    /// ```
    pub fn pull_after<W: Wait + Copy>(
        &self,
        rt: &W,
        note: StackNote<T>,
    ) -> Result<StackReusable<T, &Self, W>, PullError>
        requires { IsNoteOf (F.lock (stack_view self.now).list) note }
        ensures pool { IfOk result (λ item. item.pool.now ≡ self.now) }
        ensures pulled { IfOk result (λ item.
            Pulls K.meets I.answers R.leaves (stack_view self.now).init item.value item.known) }
        ensures after { IfOk result (λ item. GoesOn note item.known) }
        ensures refused { IfErr result (Refuses ⊤ (I.answers (stack_view self.now).init None) ⊥) }
    {
        let (kept, note) = self.kept.take_after(rt, note);
        self.reusable(self, *rt, kept, note)
    }

    /// Pulls the value that was kept last, or makes one if none is kept. The reusable owns the pool
    /// with others: it becomes one more owner before an item is taken.
    ///
    /// # Errors
    ///
    /// `Memory` if the pool can have no more owners. Else only if no value is kept: `Memory` if
    /// there is no memory for the room of its return, and `Init` if `init` returned `None`.
    pub fn pull_owned<W: Wait + Copy>(
        self: &Arc<Self>,
        rt: &W,
    ) -> Result<StackReusable<T, Arc<Self>, W>, PullError>
        ensures pool { IfOk result (λ item. arc_value item.pool ≡ arc_value self.now) }
        ensures pulled { IfOk result (λ item.
            Pulls K.meets I.answers R.leaves (stack_view (arc_value self.now)).init item.value
            item.known) }
        ensures refused { IfErr result
            (Refuses ⊤ (I.answers (stack_view (arc_value self.now)).init None) ⊥) }
    {
        let owner = Arc::try_clone(self)?;
        let (kept, note) = self.kept.take(rt);
        self.reusable(owner, *rt, kept, note)
    }

    /// Makes the reusable of a kept value and its room, or of new ones if the pull found none.
    #[inline(always)]
    fn reusable<P: SharedStackPool<T>, W: ReturnPermission<T, P>>(
        &self,
        pool: P,
        rt: W,
        kept: Option<(T, Room<T>)>,
        note: StackNote<T>,
    ) -> Result<StackReusable<T, P, W>, PullError>
        requires of { IsNoteOf (P.lock pool) note }
        requires meets { IfSome kept (λ taken. K.meets taken.0) }
        requires made_or_reset { IfSome kept (λ taken. IsMadeOrReset I.answers R.leaves taken.0) }
        requires taken { IsTake kept note }
        ensures pool { IfOk result (λ item. item.pool ≡ pool) }
        ensures known { IfOk result (λ item. item.known ≡ note) }
        ensures pulled { IfOk result (λ item.
            Pulls K.meets I.answers R.leaves (stack_view self.now).init item.value note) }
        ensures refused { IfErr result (Refuses ⊤ (I.answers (stack_view self.now).init None) ⊥) }
    {
        match kept {
            Some((value, room)) => Ok(StackReusable {
                pool,
                rt,
                note,
                room,
                value,
            }),
            None => {
                let (value, room) = self.made()?;
                Ok(StackReusable {
                    pool,
                    rt,
                    note,
                    room,
                    value,
                })
            }
        }
    }

    /// Makes a value and the room for its return.
    fn made(&self) -> Result<(T, Room<T>), PullError>
        ensures meets { IfOk result (λ item. K.meets item.0) }
        ensures made { IfOk result (λ item. I.answers (stack_view self.now).init (Some item.0)) }
        ensures refused { IfErr result (Refuses ⊤ (I.answers (stack_view self.now).init None) ⊥) }
    {
        let room = self.room()?;
        match self.init.make() {
            Some(value) => Ok((value, room)),
            None => Err(PullError::Init),
        }
    }

    /// Makes `count` values and keeps them, so that as many pulls take no memory. `init` runs
    /// without the lock.
    ///
    /// # Errors
    ///
    /// `Memory`, or `Init` at the first `None`. The values made until then are kept.
    pub fn fill<W: Wait>(&self, rt: &W, count: usize) -> Result<(), PullError>
        ensures refused { IfErr result (Refuses ⊤ (I.answers (stack_view self.now).init None) ⊥) }
    {
        for _ in 0..count {
            let (value, room) = self.made()?;
            self.kept.give(rt, self.kept.note(), room, value);
        }
        Ok(())
    }

    /// Counts the values that are kept at this moment, up to `usize::MAX`. It counts them one by
    /// one under the lock. Other threads may have changed the number before it returns.
    pub fn kept<W: Wait>(&self, rt: &W) -> usize {
        self.kept.count(rt).0
    }

    /// Drops all values that are kept, and their rooms, without the lock. Items in use are returned
    /// as usual.
    pub fn clear<W: Wait>(&self, rt: &W) {
        self.kept.clear(rt);
    }

    /// Makes a room for a return.
    ///
    /// # Errors
    ///
    /// `Memory`.
    pub(crate) fn room(&self) -> Result<Room<T>, PullError>
        ensures refused { IfErr result (Refuses ⊤ ⊥ ⊥) }
    {
        Room::new(self.alloc)
    }

    /// Returns a note of what the pool's operations are at a moment of this call. It costs a load
    /// at most.
    pub fn note(&self) -> StackNote<T>
        ensures { IsNoteOf (F.lock (stack_view self.now).list) result }
    {
        self.kept.note()
    }
}

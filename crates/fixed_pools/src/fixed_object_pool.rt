//! A pool of a fixed number of items, all made up front. Threads pull and return without a lock,
//! and no call needs memory after the opening, but for one more owner.
//!
//! The items lie 32 to a page, and a page is one word. All words lie in one table, so one
//! sequential history has the pulls and returns of the whole pool. No pull and no return waits for
//! another thread. The upper half of each word counts the returns of its page, so a pull that took
//! nothing sees whether an item came back while it looked.
ghost use Rattle.std.specs.Prelude.{◌≡◌, ◌≢◌, ◌+◌, ◌*◌, ◌/◌, ◌<◌, ◌≤◌, None, Some, IfOk, IfErr, ◌⊎◌, ⊤};
ghost use Rattle.std.specs.Arc.{arc_value};
ghost use Rattle.pool_parts.specs.declared.pull_error.PullError.TheVariants.{Memory, Limit};

use crate::fixed_owned_reusable::FixedOwnedReusable;
use crate::fixed_reusable::FixedReusable;
use items::FixedItems;
use order::Order;
use pool_parts::PullError;
use pool_parts::clean::{AnyValue, Clean};
use pool_parts::closures::{Init, Reset};
use pool_parts::made_or_reset::MadeOrReset;
use pool_parts::page::inside::{Holding, PulledItem};
use pool_parts::page::{PageNote, PullPass, Witness};
use std::alloc::Global;
use std::fmt::{self, Debug, Formatter, Write};
use std::sync::Arc;

mod at;
mod busy_seen;
pub mod items;
pub mod order;
mod pass;

pub use crate::near::Near;
pub use busy_seen::BusySeen;

/// What is known of a fixed pool's history while no item is held. It has no bytes.
///
/// # Examples
///
/// ```rust
/// let note = pool.note();
/// let item = pool.try_pull_from(&pass, note).ok()?; // comes after all that the note knew
/// ```
pub type PoolNote<T> = PageNote<T>;

/// The result of [`FixedObjectPool::try_pull`]: an item, or that each one was seen in use.
///
/// # Examples
///
/// ```rust
/// match pool.try_pull(&pass) {
///     Ok(item) => Some(item.number()),
///     Err(_busy) => None, // it shows that each item was seen in use
/// }
/// ```
pub type FixedPulled<'s, 'p, T, I, R, K = AnyValue> = Result<
    FixedReusable<'s, T, I, R, K>,
    BusySeen<'p, T>,
>;

/// A pool of a fixed number of items.
///
/// # Examples
///
/// ```rust
/// let pool = FixedObjectPool::<u32, _, _>::new(alloc, Copied::new(0), Copied::new(0), 1_000)?;
/// let mut item = pool.pull()?; // takes no memory
/// *item = 5;
/// drop(item); // the value is 0 again, and in the pool
/// ```
pub struct FixedObjectPool<T, I: Init<T, K>, R: Reset<T, K>, K: Clean<T> = AnyValue> {
    pub(crate) reset: R,
    pub(crate) items: FixedItems<T, MadeOrReset<I, R, K>>,
}

impl<T: Drop, I: Init<T, K>, R: Reset<T, K>, K: Clean<T>> Drop for FixedObjectPool<T, I, R, K> {
    fn drop(self) {
        let FixedObjectPool { reset: _, items: _ } = self;
    }
}

impl<T: Drop, I: Init<T, K>, R: Reset<T, K>, K: Clean<T>> FixedObjectPool<T, I, R, K> {
    ghost use Rattle.fixed_pools.specs.FixedPool.{IsBusy, IsFullNote, Pulls, fixed_view, returns_since};
    ghost use Rattle.pool_parts.specs.Page.{view_of, held_item, IsGivenBack, IsNoteOf, HasLearned};
    ghost use Rattle.pool_parts.specs.Item.{IsFilled, new_user};
    ghost use Rattle.pool_parts.specs.Answers.{Refuses};

    /// Creates a pool of `items` free items. Item `i` is the answer of call `i` of `init`, counted
    /// from 0.
    ///
    /// # Errors
    ///
    /// `Memory`, or `Init` at the first `None`. The items that were made are dropped.
    ///
    /// # Examples
    ///
    /// ```rust
    /// let pool = FixedObjectPool::<u32, _, _>::new(alloc, Copied::new(0), Copied::new(0), 8)?;
    /// ```
    pub fn new(
        alloc: Global,
        init: I,
        reset: R,
        items: usize,
    ) -> Result<FixedObjectPool<T, I, R, K>, PullError>
        requires some_item { 1 ≤ items }
        ensures reset { IfOk result (λ pool. (fixed_view pool).reset ≡ reset) }
        ensures items { IfOk result (λ pool. (fixed_view pool).items ≡ items) }
        ensures pages { IfOk result (λ pool. (fixed_view pool).pages ≡ (items + 31) / 32) }
        ensures opened { IfOk result (λ pool.
            IsFilled items (λ made. I.answers init (Some made)) (fixed_view pool).opening) }
        ensures refused { IfErr result (Refuses ⊤ (I.answers init None) ⊥) }
    {
        let maker = &init;
        let items = FixedItems::new(alloc, items, Order::Round, &|| maker.make())?;
        Ok(FixedObjectPool { reset, items })
    }

    /// Returns the number of items of the pool.
    pub fn items(&self) -> usize
        ensures { result ≡ (fixed_view self.now).items }
    {
        self.items.count()
    }

    /// Pulls a free item, beginning at the page that a hint names.
    ///
    /// It passes over the words of the pool, each read once and each set bit tried once. Most pulls
    /// take an item within this first pass. One that took nothing makes a second pass. If that
    /// takes nothing either, and the words count no more returns than before, the pull fails: no
    /// item was free at one moment. Otherwise it goes on. So a third pass comes only after another
    /// thread's return: a pull is lock-free. [`FixedObjectPool::try_pull`] makes one pass, and is
    /// wait-free. Both count steps of this source. On x86-64 the step that clears a bit is compiled
    /// to a loop.
    ///
    /// # Errors
    ///
    /// `Limit` if no item was free at one moment of the call (or 2^32 returns and more came within
    /// it, which the counts of the words can't tell from none).
    #[inline(always)]
    pub fn pull(&self) -> Result<FixedReusable<'_, T, I, R, K>, PullError>
        ensures pool { IfOk result (λ item. item.pool.now ≡ self.now) }
        ensures pulled { IfOk result (λ item.
            Pulls K.meets I.answers R.leaves self.now (returns_since item.known + 1)
            (new_user (fixed_view self.now).opening item.item.holder) item.item item.known) }
        ensures refused { IfErr result (λ error. error ≡ Limit) }
    {
        match self.items.pull_in_order(self.items.hinted(), None) {
            Ok(pulled) => Ok(FixedReusable::new(self, pulled)),
            Err(_) => Err(PullError::Limit),
        }
    }

    /// Pulls a free item, beginning at this page, counted round and round. If the page has no free
    /// item, it goes on at the hinted page, then at those after that one, then from page 0 on.
    ///
    /// Threads that keep to pages of their own share no word of items: as long as the page has a
    /// free item, the pull neither reads nor sets the hint. A return to a page that was full reads
    /// it, and may set it. [`FixedObjectPool::near`] chooses the pages.
    ///
    /// # Errors
    ///
    /// `Limit`, as of `pull`.
    ///
    /// # Examples
    ///
    /// ```rust
    /// let item = pool.pull_near(8 * thread)?;
    /// ```
    #[inline(always)]
    pub fn pull_near(&self, page: usize) -> Result<FixedReusable<'_, T, I, R, K>, PullError>
        ensures pool { IfOk result (λ item. item.pool.now ≡ self.now) }
        ensures pulled { IfOk result (λ item.
            Pulls K.meets I.answers R.leaves self.now (returns_since item.known + 1)
            (new_user (fixed_view self.now).opening item.item.holder) item.item item.known) }
        ensures refused { IfErr result (λ error. error ≡ Limit) }
    {
        let start = self.items.page_round(page);
        match self.items.pull_in_order(start, Some(Order::Hinted)) {
            Ok(pulled) => Ok(FixedReusable::new(self, pulled)),
            Err(_) => Err(PullError::Limit),
        }
    }

    /// Returns a place for one thread to begin its pulls at: each call names the next page, eight
    /// words further, so that threads don't meet while their pages have free items.
    ///
    /// # Examples
    ///
    /// ```rust
    /// let near = pool.near();
    /// let item = near.pull()?;
    /// ```
    pub fn near(&self) -> Near<'_, T, I, R, K>
        ensures { result.pool.now ≡ self.now }
    {
        Near::new(self, self.items.next_own_page())
    }

    /// Pulls a free item in one pass, and shows what it found if it took none. It is wait-free, as
    /// `pull` says.
    ///
    /// # Errors
    ///
    /// The evidence that each item was out during this call.
    pub fn try_pull<'s, 'p>(&'s self, pass: &'p PullPass) -> FixedPulled<'s, 'p, T, I, R, K>
        ensures pool { IfOk result (λ item. item.pool.now ≡ self.now) }
        ensures pulled { IfOk result (λ item. Pulls K.meets I.answers R.leaves self.now 1
            (new_user (fixed_view self.now).opening item.item.holder) item.item item.known) }
        ensures busy { IfErr result (λ busy. IsBusy (fixed_view self.now).identity
            (new_user (fixed_view self.now).opening busy.known.user) busy.page busy.known) }
    {
        Ok(FixedReusable::new(self, self.items.try_pull(pass)?))
    }

    /// Pulls a free item in one pass, by a user that knows something of the pool. The pull comes
    /// after all that the note knew.
    ///
    /// # Errors
    ///
    /// The evidence that each item was out during this call.
    pub fn try_pull_from<'s, 'p>(
        &'s self,
        pass: &'p PullPass,
        note: PoolNote<T>,
    ) -> FixedPulled<'s, 'p, T, I, R, K>
        requires { note.seat.table_id ≡ (fixed_view self.now).identity }
        ensures pool { IfOk result (λ item. item.pool.now ≡ self.now) }
        ensures pulled { IfOk result (λ item. Pulls K.meets I.answers R.leaves self.now 1
            (view_of note.seat) item.item item.known) }
        ensures busy { IfErr result (λ busy.
            IsBusy (fixed_view self.now).identity (view_of note.seat) busy.page busy.known) }
    {
        let pulled = self.items.pull_from(pass, note)?;
        Ok(FixedReusable::new(self, pulled))
    }

    /// Returns a note of this pool, which knows some prefix of its history.
    pub fn note(&self) -> PoolNote<T>
        ensures { IsNoteOf (fixed_view self.now).identity (fixed_view self.now).opening result }
    {
        self.items.shared.note()
    }

    /// Adds what a witness knows to what a note knows. Afterwards both their histories are prefixes
    /// of the note's.
    pub fn tell(&self, note: &mut PoolNote<T>, other: Witness<T>)
        requires note { note.old.seat.table_id ≡ (fixed_view self.now).identity }
        requires other { other.seat.table_id ≡ (fixed_view self.now).identity }
        ensures { HasLearned note.old other note.new }
    {
        self.items.shared.tell(note, other);
    }

    /// Pulls a free item, with an owner of the pool in place of a borrow: the reusable becomes one
    /// more owner before an item is taken.
    ///
    /// # Errors
    ///
    /// `Limit`, as of `pull`, and `Memory` if the pool can have no more owners.
    pub fn pull_owned(self: &Arc<Self>) -> Result<FixedOwnedReusable<T, I, R, K>, PullError>
        ensures pool { IfOk result (λ item. arc_value item.pool ≡ arc_value self.now) }
        ensures pulled { IfOk result (λ item.
            Pulls K.meets I.answers R.leaves (arc_value self.now) (returns_since item.known + 1)
            (new_user (fixed_view (arc_value self.now)).opening item.item.holder) item.item
            item.known) }
        ensures refused { IfErr result (λ error. (error ≡ Memory) ⊎ (error ≡ Limit)) }
    {
        let owner = Arc::try_clone(self)?;
        let Ok(pulled) = self.items.pull() else {
            return Err(PullError::Limit);
        };
        Ok(FixedOwnedReusable::new(owner, pulled))
    }

    /// Pulls a free item, beginning at this page, by an owner of the pool that has a note of it.
    /// The reusable takes over both, so no owner is counted, and the pull comes after all that the
    /// note knew. `give_back_with_owner` hands both out again.
    ///
    /// # Errors
    ///
    /// The owner and the note, which now knows that the pool was full at one moment of this call
    /// (or that so many returns came within it as `pull` says).
    #[inline(always)]
    pub fn pull_by_owner(
        self: Arc<Self>,
        page: usize,
        note: PoolNote<T>,
    ) -> Result<FixedOwnedReusable<T, I, R, K>, (Arc<Self>, PoolNote<T>)>
        requires { note.seat.table_id ≡ (fixed_view (arc_value self)).identity }
        ensures pool { IfOk result (λ item. arc_value item.pool ≡ arc_value self) }
        ensures pulled { IfOk result (λ item.
            Pulls K.meets I.answers R.leaves (arc_value self) (returns_since item.known + 1)
            (view_of note.seat) item.item item.known) }
        ensures same_owner { IfErr result (λ kept. arc_value kept.0 ≡ arc_value self) }
        ensures full { IfErr result (λ kept.
            IsFullNote (fixed_view (arc_value self)).identity (view_of note.seat) kept.1) }
    {
        let start = self.items.page_round(page);
        match self.items.pull_onward(start, note) {
            Ok(pulled) => Ok(FixedOwnedReusable::new(self, pulled)),
            Err(note) => Err((self, note)),
        }
    }

    /// Pulls a free item as `pull_near` does, and returns it without a borrow of the pool. Only
    /// [`FixedObjectPool::give`] returns it to the pool. The calls for C stand on these two.
    ///
    /// # Errors
    ///
    /// The note of a user that found the pool full at one moment of this call (or that so many
    /// returns came within it as `pull` says).
    #[inline(always)]
    pub fn pull_item(&self, page: usize) -> Result<PulledItem<T>, PoolNote<T>>
        ensures pulled { IfOk result (λ item. Pulls K.meets I.answers R.leaves self.now
            (returns_since (view_of item.holding.seat) + 1)
            (new_user (fixed_view self.now).opening (view_of item.holding.seat).user)
            (held_item item.holding item.value) (view_of item.holding.seat)) }
        ensures full { IfErr result (λ note. IsFullNote (fixed_view self.now).identity
            (new_user (fixed_view self.now).opening (view_of note.seat).user) note) }
    {
        let start = self.items.page_round(page);
        self.items.pull_in_order(start, Some(Order::Hinted))
    }

    /// Resets the value of an item that was pulled without a borrow of the pool, and returns it.
    /// The note knows the pool's history up to this return.
    pub fn give(&self, holding: Holding<T>, value: T) -> PoolNote<T>
        requires of_pool { holding.seat.table_id ≡ (fixed_view self.now).identity }
        requires in_pool { holding.number < (fixed_view self.now).items }
        ensures { IsGivenBack (R.leaves (fixed_view self.now).reset) (held_item holding value)
            result }
    {
        let mut left = value;
        self.reset.reset(&mut left);
        PageNote {
            seat: self.items.give(holding, left),
        }
    }
}

impl<T: Drop, I: Init<T, K>, R: Reset<T, K>, K: Clean<T>> Debug for FixedObjectPool<T, I, R, K> {
    fn fmt<W: Write>(&self, f: &mut Formatter<W>) -> fmt::Result {
        f.debug_struct("FixedObjectPool")
            .field("items", &self.items())
            .finish_non_exhaustive()
    }
}

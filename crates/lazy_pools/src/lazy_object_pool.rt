//! A pool of a set number of items, each made when it is first needed. A pull may wait for an item
//! to be returned.
//!
//! The places of the items are the items of a fixed pool. Each place is empty at first. A pull
//! takes a place, and makes the value if the place is empty. So one sequential history has the
//! pulls and returns of the whole pool, those of empty places too.
//!
//! A pull makes an item only after it saw each lower item of the page in use, and it begins a new
//! page last. So while one thread at a time pulls or returns, and `init` never refuses, the pool
//! makes no more items than were in use at once.
//!
//! Only the pulls that take a permission to wait do so. No return waits: it reads whether anybody
//! waits, and wakes one.
//!
//! A pool may be closed: then pulls and those that wait for an item fail, and items are dropped as
//! they are returned.
//!
//! Serving isn't fair: who waits longest needn't come first. An `init` or a `reset` that waits on
//! its own pool can wait for ever.
ghost use Rattle.std.specs.Prelude.{◌≡◌, ◌+◌, ◌*◌, ◌/◌, ◌<◌, ◌≤◌, ⊤, None, Some, IfOk, IfErr, IfSome};
ghost use Rattle.std.specs.Arc.{arc_value};

use crate::lazy_owned_reusable::LazyOwnedReusable;
use crate::lazy_reusable::{LazyReusable, LazyReusableOf, SharedLazyPool};
use fixed_pools::fixed_object_pool::PoolNote;
use fixed_pools::fixed_object_pool::items::FixedItems;
use fixed_pools::fixed_object_pool::order::Order;
use kept_place::KeptPlace;
use lazy_refused::{LazyRefused, NoPlace};
use pool_parts::PullError;
use pool_parts::clean::{AnyValue, Clean};
use pool_parts::closures::{Init, Reset};
use pool_parts::page::inside::{Holding, PulledItem};
use pool_parts::page::{PageNote, PullPass, Witness};
use std::alloc::Global;
use std::fmt::{self, Debug, Formatter, Write};
use std::sync::Arc;
use std::sync::atomic::AtomicUsize;
use std::sync::atomic::Ordering::SeqCst;
use waiters::Waiters;

mod closing;
mod counts;
pub mod kept_place;
pub mod lazy_refused;
mod pull_with;
mod waiters;
mod waiting;

pub use crate::near::Near;

/// What [`LazyObjectPool::try_pull`] returns: an item, or why there is none.
///
/// # Examples
///
/// ```rust
/// match pool.try_pull(&pass) {
///     Ok(_item) => "an item",
///     Err(LazyRefused::Busy(_)) => "each item was seen in use",
///     Err(LazyRefused::NotMade) => "`init` returned `None`",
///     Err(LazyRefused::Closed) => "the pool is closed",
/// }
/// ```
pub type LazyPulled<'s, 'p, T, I, R, K = AnyValue> = Result<
    LazyReusable<'s, T, I, R, K>,
    LazyRefused<'p, T>,
>;

/// A pool of a set number of items, each made when it is first needed.
///
/// # Examples
///
/// ```rust
/// let pool = LazyObjectPool::<u32, _, _>::new(alloc, Copied::new(0), Copied::new(0), 1_000)?;
/// let mut item = pool.pull()?; // makes an item, since there is none yet
/// *item = 5;
/// drop(item); // the value is 0 again, and in the pool
/// let other = pool.pull_timeout(&rt, Duration::from_millis(20))?; // it waits if all are in use
/// ```
pub struct LazyObjectPool<T, I: Init<T, K>, R: Reset<T, K>, K: Clean<T> = AnyValue> {
    init: I,
    pub(crate) reset: R,
    pub(crate) places: FixedItems<Option<T>, KeptPlace<I, R, K>>,
    /// How many items there are, in use or free.
    pub(crate) existing: AtomicUsize,
    /// The most items that there ever were at once.
    pub(crate) made: AtomicUsize,
    pub(crate) waiters: Waiters,
}

impl<T: Drop, I: Init<T, K>, R: Reset<T, K>, K: Clean<T>> Drop for LazyObjectPool<T, I, R, K> {
    fn drop(self) {
        let LazyObjectPool {
            init: _,
            reset: _,
            places: _,
            existing: _,
            made: _,
            waiters: _,
        } = self;
    }
}

impl<T: Drop, I: Init<T, K>, R: Reset<T, K>, K: Clean<T>> LazyObjectPool<T, I, R, K> {
    ghost use Rattle.pool_parts.specs.Answers.{IsMadeOrReset, Refuses, RefusesOrClosed};
    ghost use Rattle.fixed_pools.specs.FixedPool.{returns_since, IsWithin};
    ghost use Rattle.pool_parts.specs.Page.{view_of, held_item, IsNoteOf, HasLearned, IsReturned};
    ghost use Rattle.pool_parts.specs.Item.{IsFilled, IsPulled, new_user};
    ghost use Rattle.lazy_pools.specs.LazyPool.{IsBroughtBack, IsPulledPlace, Pulls, RefusesOnePass, TakesNone, lazy_view};

    /// Creates a pool of `items` empty places. It makes no item. A place takes the room of a `T`
    /// and two words.
    ///
    /// # Errors
    ///
    /// `Memory`.
    ///
    /// # Examples
    ///
    /// ```rust
    /// let pool = LazyObjectPool::<u32, _, _>::new(alloc, Copied::new(0), Keep, 1_000)?;
    /// ```
    pub fn new(
        alloc: Global,
        init: I,
        reset: R,
        items: usize,
    ) -> Result<LazyObjectPool<T, I, R, K>, PullError>
        requires some_item { 1 ≤ items }
        ensures init { IfOk result (λ pool. (lazy_view pool).init ≡ init) }
        ensures reset { IfOk result (λ pool. (lazy_view pool).reset ≡ reset) }
        ensures items { IfOk result (λ pool. (lazy_view pool).items ≡ items) }
        ensures pages { IfOk result (λ pool. (lazy_view pool).pages ≡ (items + 31) / 32) }
        ensures empty { IfOk result (λ pool.
            IsFilled items (λ place. place ≡ None) (lazy_view pool).opening) }
        ensures refused { IfErr result (Refuses ⊤ ⊥ ⊥) }
    {
        let places = FixedItems::new(alloc, items, Order::LowFirst, &|| Some(None))?;
        Ok(LazyObjectPool {
            init,
            reset,
            places,
            existing: AtomicUsize::new(0),
            made: AtomicUsize::new(0),
            waiters: Waiters::new(),
        })
    }

    /// Returns the number of items that the pool may have.
    pub fn items(&self) -> usize
        ensures { result ≡ (lazy_view self.now).items }
    {
        self.places.count()
    }

    /// Pulls a free item, and makes it if its place is empty. `init` runs under no lock, and the
    /// item is in use meanwhile.
    ///
    /// A pull passes over the pool's words again only after another thread returned an item: it is
    /// lock-free, but for `init`. [`LazyObjectPool::try_pull`] makes one pass.
    ///
    /// # Errors
    ///
    /// - `Limit` if no item was free at one moment of the call (or 2^32 returns and more came
    ///   within it, which the counts of the words can't tell from none).
    /// - `Init` if `init` returned `None`. The place is free again, and empty.
    /// - `Closed` if the pool was closed.
    pub fn pull(&self) -> Result<LazyReusable<'_, T, I, R, K>, PullError>
        ensures pool { IfOk result (λ item. item.pool.now ≡ self.now) }
        ensures pulled { IfOk result (λ item.
            Pulls K.meets I.answers R.leaves (lazy_view self.now) item.item item.value) }
        ensures steps { IfOk result (λ item.
            IsWithin ((lazy_view self.now).pages * (returns_since item.known + 1)) 0 0 item.known) }
        ensures refused { IfErr result
            (RefusesOrClosed ⊥ (I.answers (lazy_view self.now).init None) ⊤) }
    {
        self.reusable(self, self.take()?)
    }

    /// Returns a place for one thread to begin its pulls at: each call names the next page, eight
    /// words further, so that threads don't meet while their pages have free places.
    ///
    /// # Examples
    ///
    /// ```rust
    /// let near = pool.near();
    /// let item = near.pull()?;
    /// ```
    pub fn near(&self) -> Near<'_, T, I, R, K>
        ensures { result.pool.now ≡ self.now }
    {
        Near::new(self, self.places.next_own_page())
    }

    /// Pulls a free item by one pass over the pool's words, and makes it if its place is empty.
    ///
    /// # Errors
    ///
    /// - `Busy` with the evidence that each item was in use at some moment of the call.
    /// - `NotMade` if `init` returned `None`. The place is free again, and empty.
    /// - `Closed` if the pool was closed.
    pub fn try_pull<'s, 'p>(&'s self, pass: &'p PullPass) -> LazyPulled<'s, 'p, T, I, R, K>
        ensures pool { IfOk result (λ item. item.pool.now ≡ self.now) }
        ensures pulled { IfOk result (λ item.
            Pulls K.meets I.answers R.leaves (lazy_view self.now) item.item item.value) }
        ensures steps { IfOk result (λ item. IsWithin (lazy_view self.now).pages 0 0 item.known) }
        ensures refused { IfErr result
            (RefusesOnePass (lazy_view self.now).identity (lazy_view self.now).opening
            (I.answers (lazy_view self.now).init None)) }
    {
        if self.waiters.is_closed() {
            return Err(LazyRefused::Closed);
        }
        match self.places.try_pull(pass) {
            Ok(pulled) => match self.reusable(self, pulled) {
                Ok(item) => Ok(item),
                Err(_) => Err(LazyRefused::NotMade),
            },
            Err(busy) => Err(LazyRefused::Busy(busy)),
        }
    }

    /// Pulls a free item, and makes it if its place is empty. The reusable owns the pool with
    /// others, which are one more before an item is taken.
    ///
    /// # Errors
    ///
    /// - `Memory` if the pool can have no more owners.
    /// - `Limit`, `Init` and `Closed` as `pull` says.
    pub fn pull_owned(self: &Arc<Self>) -> Result<LazyOwnedReusable<T, I, R, K>, PullError>
        ensures pool { IfOk result (λ item. arc_value item.pool ≡ arc_value self.now) }
        ensures pulled { IfOk result (λ item.
            Pulls K.meets I.answers R.leaves (lazy_view (arc_value self.now)) item.item
            item.value) }
        ensures steps { IfOk result (λ item.
            IsWithin ((lazy_view (arc_value self.now)).pages * (returns_since item.known
            + 1)) 0 0 item.known) }
        ensures refused { IfErr result
            (RefusesOrClosed ⊤ (I.answers (lazy_view (arc_value self.now)).init None) ⊤) }
    {
        let owner = Arc::try_clone(self)?;
        self.reusable(owner, self.take()?)
    }

    /// Returns a note of this pool, which knows some prefix of its history.
    pub fn note(&self) -> PoolNote<Option<T>>
        ensures { IsNoteOf (lazy_view self.now).identity (lazy_view self.now).opening result }
    {
        self.places.shared.note()
    }

    /// Adds what a witness knows to what a note knows. The histories of both are prefixes of one.
    pub fn tell(&self, note: &mut PoolNote<Option<T>>, other: Witness<Option<T>>)
        requires note { note.old.seat.table_id ≡ (lazy_view self.now).identity }
        requires other { other.seat.table_id ≡ (lazy_view self.now).identity }
        ensures { HasLearned note.old other note.new }
    {
        self.places.shared.tell(note, other);
    }

    /// Takes a free place, unless the pool is closed.
    #[inline(always)]
    pub(crate) fn take(&self) -> Result<PulledItem<Option<T>>, NoPlace<T>>
        ensures pulled { IfOk result (IsPulledPlace K.meets I.answers R.leaves (lazy_view self.now)) }
        ensures steps { IfOk result (λ pulled.
            IsWithin ((lazy_view self.now).pages * (returns_since (view_of pulled.holding.seat)
            + 1)) 0 0 (view_of pulled.holding.seat)) }
        ensures none { IfErr result (TakesNone (lazy_view self.now) ⊤) }
    {
        if self.waiters.is_closed() {
            return Err(NoPlace::Closed);
        }
        match self.places.pull() {
            Ok(pulled) => Ok(pulled),
            Err(full) => Err(NoPlace::Full(full)),
        }
    }

    /// Returns the reusable of a place that was taken. It makes the value if the place is empty.
    #[inline(always)]
    pub(crate) fn reusable<P: SharedLazyPool<T>>(
        &self,
        pool: P,
        pulled: PulledItem<Option<T>>,
    ) -> Result<LazyReusableOf<T, P>, PullError>
        requires same_pool { (P.shown pool).identity ≡ (lazy_view self.now).identity }
        requires pulled { IsPulledPlace K.meets I.answers R.leaves (lazy_view self.now) pulled }
        ensures pool { IfOk result (λ item. item.pool ≡ pool) }
        ensures pulled { IfOk result (λ item.
            Pulls K.meets I.answers R.leaves (lazy_view self.now) item.item item.value) }
        ensures known { IfOk result (λ item. item.known ≡ view_of pulled.holding.seat) }
        ensures refused { IfErr result (Refuses ⊥ (I.answers (lazy_view self.now).init None) ⊥) }
    {
        let PulledItem { holding, value } = self.item(pulled)?;
        Ok(LazyReusableOf {
            pool,
            holding,
            value,
        })
    }

    /// Returns the item of a place that was taken, and makes its value if the place is empty.
    pub(crate) fn item(
        &self,
        pulled: PulledItem<Option<T>>,
    ) -> Result<PulledItem<Option<T>, T>, PullError>
        requires pulled { IsPulledPlace K.meets I.answers R.leaves (lazy_view self.now) pulled }
        ensures same { IfOk result (λ item. item.holding ≡ pulled.holding) }
        ensures pulled { IfOk result (λ item.
            Pulls K.meets I.answers R.leaves (lazy_view self.now)
            (held_item item.holding (Some item.value)) item.value) }
        ensures refused { IfErr result (Refuses ⊥ (I.answers (lazy_view self.now).init None) ⊥) }
    {
        let PulledItem { holding, value } = pulled;
        match value {
            Some(value) => Ok(PulledItem { holding, value }),
            None => self.make(holding),
        }
    }

    /// Makes the value of an empty place that was taken. If `init` refuses, the place is returned.
    #[cold]
    fn make(&self, holding: Holding<Option<T>>) -> Result<PulledItem<Option<T>, T>, PullError>
        requires pulled { IsPulled (lazy_view self.now).identity
            (new_user (lazy_view self.now).opening (view_of holding.seat).user)
            (held_item holding None) }
        ensures same { IfOk result (λ item. item.holding ≡ holding) }
        ensures pulled { IfOk result (λ item.
            Pulls K.meets I.answers R.leaves (lazy_view self.now)
            (held_item item.holding (Some item.value)) item.value) }
        ensures refused { IfErr result (Refuses ⊥ (I.answers (lazy_view self.now).init None) ⊥) }
    {
        match self.init.make() {
            Some(value) => {
                self.count_made();
                Ok(PulledItem { holding, value })
            }
            None => {
                self.give_place(holding);
                Err(PullError::Init)
            }
        }
    }

    /// Resets the value of an item, returns it, and wakes one that waits. The place is empty if the
    /// reset rejects the value. In a closed pool it is emptied then.
    pub(crate) fn give(&self, holding: Holding<Option<T>>, value: T) -> PoolNote<Option<T>>
        requires of_pool { holding.seat.table_id ≡ (lazy_view self.now).identity }
        requires in_pool { holding.number < (lazy_view self.now).items }
        ensures { IsBroughtBack (R.leaves (lazy_view self.now).reset)
            (R.rejects (lazy_view self.now).reset) (held_item holding (Some value)) value result }
    {
        match self.reset.try_reset(value) {
            Some(left) => self.give_kept(holding, left),
            None => self.give_empty(holding),
        }
    }

    /// Returns a place with a value that the pool keeps, and wakes one that waits. If the pool was
    /// closed, it takes the place once more and drops what lies there: whoever closed the pool may
    /// have passed by before.
    pub(crate) fn give_kept(&self, holding: Holding<Option<T>>, value: T) -> PoolNote<Option<T>>
        requires of_pool { holding.seat.table_id ≡ (lazy_view self.now).identity }
        requires in_pool { holding.number < (lazy_view self.now).items }
        requires meets { K.meets value }
        requires kept { IsMadeOrReset I.answers R.leaves value }
        ensures { IsReturned (held_item holding (Some value)) result }
    {
        let number = holding.number;
        let seat = self.places.give(holding, Some(value));
        if self.waiters.wake_one() {
            self.clear_place(number);
        }
        PageNote { seat }
    }

    /// Returns the place of an item without its value, and wakes one that waits.
    pub(crate) fn give_empty(&self, holding: Holding<Option<T>>) -> PoolNote<Option<T>>
        requires of_pool { holding.seat.table_id ≡ (lazy_view self.now).identity }
        requires in_pool { holding.number < (lazy_view self.now).items }
        ensures { IsReturned (held_item holding None) result }
    {
        self.existing.fetch_sub(1, SeqCst);
        self.give_place(holding)
    }

    /// Returns a place that is empty, and wakes one that waits.
    pub(crate) fn give_place(&self, holding: Holding<Option<T>>) -> PoolNote<Option<T>>
        requires of_pool { holding.seat.table_id ≡ (lazy_view self.now).identity }
        requires in_pool { holding.number < (lazy_view self.now).items }
        ensures { IsReturned (held_item holding None) result }
    {
        let seat = self.places.give(holding, None);
        self.waiters.wake_one();
        PageNote { seat }
    }
}

impl<T: Drop, I: Init<T, K>, R: Reset<T, K>, K: Clean<T>> Debug for LazyObjectPool<T, I, R, K> {
    fn fmt<W: Write>(&self, f: &mut Formatter<W>) -> fmt::Result {
        f.debug_struct("LazyObjectPool")
            .field("items", &self.items())
            .field("made", &self.made())
            .finish_non_exhaustive()
    }
}

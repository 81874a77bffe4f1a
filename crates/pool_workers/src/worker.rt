//! A worker, and the items that it keeps.
ghost use Rattle.std.specs.Prelude.{◌≡◌, IfOk, IfErr, IfSome};
ghost use Rattle.pool_parts.specs.declared.pull_error.PullError.TheVariants.{Memory};

use crate::shelf::Shelf;
use crate::spare::Spare;
use crate::worker_place::WorkerPlace;
use crate::worker_reusable::WorkerReusable;
use pool_parts::PullError;
use std::alloc::Global;
use std::cell::Cell;
use std::fmt::{self, Debug, Formatter, Write};
use std::marker::Model;

/// A handle of a fixed, a lazy or a linear pool for one thread, which keeps items that came back.
///
/// The next pull takes what is kept, without an atomic step that writes and without memory. One
/// item is kept, or as many as [`Worker::with_room`] says: what comes back beyond that goes to the
/// pool. An item that is kept is in use for all others, until the worker ends or pulls it. A worker
/// can be sent to a thread, with its items, and not shared.
///
/// A worker of a lazy pool that was closed keeps nothing more: its next pull or return returns all
/// to the pool, which drops it.
///
/// In a clause a worker is the place at which it pulls.
///
/// # Examples
///
/// ```rust
/// let worker = Worker::new(pool.near()); // one for each thread
/// for _ in 0..1_000 {
///     let mut item = worker.pull()?; // the first pull is the pool's, and the others cost no step
///     sum = sum.saturating_add(*item);
///     *item = 5;
/// } // its drop leaves 0, and the worker keeps the item
/// ```
pub struct Worker<T: Drop, P: WorkerPlace<T>> {
    /// Where it pulls if it keeps nothing.
    place: P,
    /// Whether it has room for one item at least.
    has_room: bool,
    /// The item that came back last.
    last: Cell<Option<Spare<T, P>>>,
    /// Those that came back before it, if there is room for more than one.
    earlier: Cell<Option<Shelf<T, P>>>,
}

impl<T: Drop, P: WorkerPlace<T>> Model for Worker<T, P> {
    ghost Value = { P };

    ghost view = { λ worker. worker.place };
}

/// Returns the items that it keeps, whose values were reset before: no reset runs.
impl<T: Drop, P: WorkerPlace<T>> Drop for Worker<T, P> {
    fn drop(self) {
        let Worker {
            place: _,
            has_room: _,
            last,
            earlier,
        } = self;
        drop(last.into_inner());
        drop(earlier.into_inner());
    }
}

impl<T: Drop, P: WorkerPlace<T>> Worker<T, P> {
    ghost use Rattle.pool_workers.specs.Workers.{WasPulled};

    /// Creates a worker that pulls at this place: that of a fixed or a lazy pool, as their `near`
    /// returns it, or a borrow of a linear pool. It has room for one item, and keeps nothing yet.
    ///
    /// # Examples
    ///
    /// ```rust
    /// let pool = LinearObjectPool::<u32, _, _>::new(alloc, Zero::new(0), Zero::new(0))?;
    /// let worker = Worker::new(&pool);
    /// ```
    pub fn new(place: P) -> Worker<T, P>
        ensures { result ≡ place }
    {
        Worker {
            place,
            has_room: true,
            last: Cell::new(None),
            earlier: Cell::new(None),
        }
    }

    /// Creates a worker that keeps up to `room` items, of which it pulls first the one that came
    /// back last. It asks for its memory here, and for none later.
    ///
    /// # Errors
    ///
    /// `Memory`.
    ///
    /// # Examples
    ///
    /// ```rust
    /// let worker = Worker::with_room(alloc, pool.near(), 8)?;
    /// let (first, second) = (worker.pull()?, worker.pull()?);
    /// drop((first, second)); // it keeps both
    /// ```
    pub fn with_room(alloc: Global, place: P, room: usize) -> Result<Worker<T, P>, PullError>
        ensures place { IfOk result (λ worker. worker ≡ place) }
        ensures refused { IfErr result (λ error. error ≡ Memory) }
    {
        let Ok(earlier) = Shelf::with_room(alloc, room.saturating_sub(1)) else {
            return Err(PullError::Memory);
        };
        Ok(Worker {
            place,
            has_room: room > 0,
            last: Cell::new(None),
            earlier: Cell::new(Some(earlier)),
        })
    }

    /// Pulls the item that came back last of those that are kept, or else one of the pool at the
    /// worker's place.
    ///
    /// Whichever it is, a pull of the item's pool gave it to this user, and nobody else was at it
    /// since. That pull was this worker's, which no clause says, since none says what a cell holds.
    ///
    /// # Errors
    ///
    /// As of the pool's own pull, if nothing is kept.
    #[inline(always)]
    pub fn pull(&self) -> Result<WorkerReusable<'_, T, P>, PullError>
        ensures pulled { IfOk result (WasPulled P.Item.Reusable.with_value P.is_pulled) }
        ensures keeps { IfOk result
            (λ item. P.Item.Reusable.keeps (P.Item.Reusable.value_of item)) }
        ensures refused { IfErr result (P.refuses self.now) }
    {
        if self.place.is_closed() {
            self.give_back_all();
        }
        let item = match self.take() {
            Some(spare) => spare.into_item(),
            None => self.place.pull()?,
        };
        Ok(WorkerReusable { worker: self, item })
    }

    /// Takes the item that came back last, if one is kept.
    #[inline(always)]
    fn take(&self) -> Option<Spare<T, P>> {
        match self.last.take() {
            Some(spare) => Some(spare),
            None => self.take_earlier(),
        }
    }

    /// Takes the last one of the others.
    #[inline(always)]
    fn take_earlier(&self) -> Option<Spare<T, P>> {
        let mut shelf = self.earlier.take()?;
        let spare = shelf.take_last();
        self.earlier.set(Some(shelf));
        spare
    }

    /// Keeps an item, or returns it to the pool if there is no room for it.
    #[inline(always)]
    pub(crate) fn keep(&self, spare: Spare<T, P>) {
        if !self.has_room || self.place.is_closed() {
            self.give_back_all();
            return;
        }
        match self.last.take() {
            None => self.last.set(Some(spare)),
            Some(before) => self.keep_both(before, spare),
        }
    }

    /// Keeps an item beside the one that came before, or returns it to the pool.
    #[inline(always)]
    fn keep_both(&self, before: Spare<T, P>, spare: Spare<T, P>) {
        let (last, beyond) = match self.put(before) {
            None => (spare, None),
            Some(before) => (before, Some(spare)),
        };
        self.last.set(Some(last));
        drop(beyond);
    }

    /// Puts an item on the shelf, or gives it back if there is no room for it.
    #[inline(always)]
    fn put(&self, spare: Spare<T, P>) -> Option<Spare<T, P>>
        ensures { IfSome result (λ back. back ≡ spare) }
    {
        let Some(mut shelf) = self.earlier.take() else {
            return Some(spare);
        };
        let back = shelf.put(spare);
        self.earlier.set(Some(shelf));
        back
    }

    /// Returns all that is kept to the pool.
    #[cold]
    fn give_back_all(&self) {
        drop(self.last.take());
        if let Some(mut shelf) = self.earlier.take() {
            shelf.clear();
            self.earlier.set(Some(shelf));
        }
    }
}

impl<T: Drop, P: WorkerPlace<T>> Debug for Worker<T, P> {
    fn fmt<W: Write>(&self, f: &mut Formatter<W>) -> fmt::Result {
        f.debug_struct("Worker").finish_non_exhaustive()
    }
}

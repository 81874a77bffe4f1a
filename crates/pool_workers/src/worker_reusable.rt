//! A value that was pulled by a worker.
ghost use Rattle.std.specs.Prelude.{◌≡◌};

use crate::spare::Spare;
use crate::worker::Worker;
use crate::worker_place::WorkerPlace;
use pool_parts::reusable::Reusable;
use std::fmt::{self, Debug, Formatter, Write};
use std::marker::Model;
use std::ops::{Deref, DerefMut};

/// A value that a worker pulled. Its drop resets it, and the worker keeps the item, or returns it
/// to the pool if there is no room for it.
///
/// In a clause it is the item, as the pool's own pull returned it.
///
/// # Examples
///
/// ```rust
/// let item = worker.pull()?;
/// let place = (item.item().page_number(), item.item().page_id());
/// ```
pub struct WorkerReusable<'w, T: Drop, P: WorkerPlace<T>> {
    pub(crate) worker: &'w Worker<T, P>,
    pub(crate) item: P::Item,
}

impl<'w, T: Drop, P: WorkerPlace<T>> Model for WorkerReusable<'w, T, P> {
    ghost use Rattle.pool_workers.specs.Workers.{WasPulled};

    ghost Value = { P.Item };

    ghost view = { λ reusable. reusable.item };

    ghost invariant = { λ reusable. WasPulled P.Item.Reusable.with_value P.is_pulled reusable.item };
}

impl<T: Drop, P: WorkerPlace<T>> Deref for WorkerReusable<'_, T, P> {
    type Target = T;

    ghost deref_gives = { λ reusable value. value ≡ P.Item.Reusable.value_of reusable };

    #[inline(always)]
    fn deref(&self) -> &T {
        self.item.value()
    }
}

impl<'w, T: Drop, P: WorkerPlace<T>> WorkerReusable<'w, T, P> {
    ghost use Rattle.pool_workers.specs.Workers.{WasPulled};

    /// Returns the item as the pool's own pull returned it. It knows its number.
    pub fn item(&self) -> &P::Item
        ensures same { result.now ≡ self.now }
        ensures pulled { WasPulled P.Item.Reusable.with_value P.is_pulled result.now }
    {
        &self.item
    }
}

impl<T: Drop, P: WorkerPlace<T>> DerefMut for WorkerReusable<'_, T, P> {
    ghost use mir.Syntax.{named};
    ghost use Rattle.std.specs.Prelude.{[]};
    ghost use Rattle.std.specs.Borrow.{Lends, sem};
    ghost use Rattle.pool_workers.specs.contracts.worker_reusable.WorkerReusable.{the_row};

    ghost deref_mut_gives = { λ reusable value. value ≡ P.Item.Reusable.value_of reusable };

    #[inline(always)]
    fn deref_mut(&mut self) -> &mut T
        ensures* writes_back { sem 𝓛
            (Lends (the_row (record { mir = named 1; lft = [] }) T.row P.row P.Item.row
            P.Item.Note.row P.WorkerPlace P.Item.Reusable) T.row self.entry result
            (P.Item.Reusable.with_value self.old)) }
        ensures shows { result.now ≡ P.Item.Reusable.value_of self.old }
    {
        self.item.value_mut()
    }
}

impl<T: Debug + Drop, P: WorkerPlace<T>> Debug for WorkerReusable<'_, T, P> {
    ghost debug_output = { λ reusable. T.debug_output (P.Item.Reusable.value_of reusable) };

    fn fmt<W: Write>(&self, f: &mut Formatter<W>) -> fmt::Result {
        Debug::fmt(self.item.value(), f)
    }
}

impl<T: Drop, P: WorkerPlace<T>> Drop for WorkerReusable<'_, T, P> {
    #[inline(always)]
    fn drop(self) {
        let WorkerReusable { worker, item } = self;
        match item.try_reset() {
            Ok(item) => worker.keep(Spare { item }),
            Err(_emptied) => {}
        }
    }
}

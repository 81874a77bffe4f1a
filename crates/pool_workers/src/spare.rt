//! An item that a worker keeps.
use crate::worker_place::WorkerPlace;
use pool_parts::reusable::Reusable;
use std::marker::Model;

/// An item that a worker keeps: it is in use, and its value is as the pool keeps it. Its drop
/// returns it to the pool.
pub(crate) struct Spare<T: Drop, P: WorkerPlace<T>> {
    pub(crate) item: P::Item,
}

impl<T: Drop, P: WorkerPlace<T>> Model for Spare<T, P> {
    ghost use Rattle.pool_workers.specs.Workers.{WasPulled};

    ghost Value = { P.Item };

    ghost view = { λ spare. spare.item };

    ghost invariant = { λ spare.
        WasPulled P.Item.Reusable.with_value P.is_pulled spare.item
        × P.Item.Reusable.keeps (P.Item.Reusable.value_of spare.item) };
}

impl<T: Drop, P: WorkerPlace<T>> Spare<T, P> {
    ghost use Rattle.pool_workers.specs.Workers.{WasPulled};

    /// Returns the item, to be used again.
    #[inline(always)]
    pub(crate) fn into_item(self) -> P::Item
        ensures pulled { WasPulled P.Item.Reusable.with_value P.is_pulled result }
        ensures keeps { P.Item.Reusable.keeps (P.Item.Reusable.value_of result) }
    {
        let Spare { item } = self;
        item
    }
}

impl<T: Drop, P: WorkerPlace<T>> Drop for Spare<T, P> {
    fn drop(self) {
        let Spare { item } = self;
        item.give_kept();
    }
}

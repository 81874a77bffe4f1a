//! How a lazy pool drops the items that it keeps, and how it is closed.
//!
//! No contract says that a closed pool keeps nothing: `ci/waiting_model` explores these steps, and
//! knows their lines.
ghost use Rattle.std.specs.Prelude.{◌<◌, IfSome};

use super::LazyObjectPool;
use pool_parts::clean::Clean;
use pool_parts::closures::{Init, Reset};
use pool_parts::page::inside::PulledItem;
use pool_parts::page::{PAGE_ITEMS, PageId};

impl<T: Drop, I: Init<T, K>, R: Reset<T, K>, K: Clean<T>> LazyObjectPool<T, I, R, K> {
    ghost use Rattle.lazy_pools.specs.LazyPool.{IsPulledPlace, lazy_view};

    /// Drops the items that the pool keeps, by number, outside of every lock. Their places stay,
    /// empty, and later pulls make items there. It takes one place at a time, and passes over those
    /// that another call has meanwhile: items in use stay in use.
    pub fn clear(&self) {
        for number in 0..self.items() {
            self.clear_place(number);
        }
    }

    /// Closes the pool, for good. From now on pulls fail with `Closed`, and so do those that wait:
    /// all are woken. The items that the pool keeps are dropped, and those in use when they are
    /// returned; they are reset before. To close it again changes nothing.
    pub fn close(&self) {
        self.waiters.close();
        self.clear();
    }

    /// Returns whether the pool was closed.
    pub fn is_closed(&self) -> bool {
        self.waiters.is_closed()
    }

    /// Drops the value of a place that is free.
    #[cold]
    pub(super) fn clear_place(&self, number: usize)
        requires { number < (lazy_view self.now).items }
    {
        let Some(PulledItem { holding, value }) = self.take_place(number) else {
            return;
        };
        match value {
            Some(value) => {
                self.give_empty(holding);
                drop(value);
            }
            None => {
                self.give_place(holding);
            }
        }
    }

    /// Takes the place of this number, if it is free.
    pub(super) fn take_place(&self, number: usize) -> Option<PulledItem<Option<T>>>
        requires { number < (lazy_view self.now).items }
        ensures { IfSome result (IsPulledPlace K.meets I.answers R.leaves (lazy_view self.now)) }
    {
        self.places
            .pull_at(number / PAGE_ITEMS, (number % PAGE_ITEMS) as PageId)
    }
}

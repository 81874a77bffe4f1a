//! A value that was pulled from a lazy pool, under a borrow of the pool or with an owner of it.
ghost use Rattle.std.specs.Prelude.{◌≡◌, ◌<◌, ◌/◌, ◌%◌, None, Option};
ghost use Rattle.std.specs.Arc.{arc_value};
ghost use Rattle.pool_parts.specs.Page.{held_item, view_of, IsReturned};

use crate::lazy_object_pool::LazyObjectPool;
use fixed_pools::fixed_object_pool::PoolNote;
use pool_parts::clean::{AnyValue, Clean};
use pool_parts::closures::{Init, Reset};
use pool_parts::page::inside::Holding;
use pool_parts::page::{PAGE_ITEMS, PageId, Witness};
use pool_parts::reusable::Reusable;
use std::fmt::{self, Debug, Formatter, Write};
use std::marker::Model;
use std::ops::{Deref, DerefMut};
use std::sync::Arc;

/// A lazy pool as each of its reusables has it: by a borrow, or with an owner.
pub trait SharedLazyPool<T>: Drop {
    ghost use Rattle.lazy_pools.specs.LazyPool.{LazyView, lazy_view};

    /// What makes the pool's values.
    type Init: Init<T, Self::Kept>;

    /// What resets them.
    type Reset: Reset<T, Self::Kept>;

    /// The condition that they meet.
    type Kept: Clean<T>;

    /// What contracts see of the pool.
    ghost shown: { Self → LazyView T Self.Init Self.Reset };

    /// Returns the pool.
    fn pool(&self) -> &LazyObjectPool<T, Self::Init, Self::Reset, Self::Kept>
        ensures { lazy_view result.now ≡ shown self.now };
}

impl<T: Drop, I: Init<T, K>, R: Reset<T, K>, K: Clean<T>> SharedLazyPool<T>
    for &LazyObjectPool<T, I, R, K> {
    ghost use Rattle.lazy_pools.specs.LazyPool.{lazy_view};

    type Init = I;

    type Reset = R;

    type Kept = K;

    ghost shown = { λ pool. lazy_view pool.now };

    fn pool(&self) -> &LazyObjectPool<T, I, R, K> {
        self
    }
}

impl<T: Drop, I: Init<T, K>, R: Reset<T, K>, K: Clean<T>> SharedLazyPool<T>
    for Arc<LazyObjectPool<T, I, R, K>> {
    ghost use Rattle.lazy_pools.specs.LazyPool.{lazy_view};

    type Init = I;

    type Reset = R;

    type Kept = K;

    ghost shown = { λ pool. lazy_view (arc_value pool) };

    fn pool(&self) -> &LazyObjectPool<T, I, R, K> {
        self
    }
}

/// A pulled value, with a shared pool. Its drop resets it and returns it to the pool.
///
/// In a clause it is the pool, the item (its place, with the value), the value, and what its user
/// knows.
pub struct LazyReusableOf<T: Drop, P: SharedLazyPool<T>> {
    pub(crate) pool: P,
    pub(crate) holding: Holding<Option<T>>,
    pub(crate) value: T,
}

impl<T: Drop, P: SharedLazyPool<T>> Model for LazyReusableOf<T, P> {
    ghost use Rattle.std.specs.Prelude.{◌≡◌, ◌<◌, Option, Some};
    ghost use Rattle.pool_parts.specs.Item.{PulledView};
    ghost use Rattle.pool_parts.specs.Page.{held_item, view_of};

    ghost Value = { PulledView P (Option T) T };

    ghost view = { λ reusable.
        record {
          pool = reusable.pool;
          item = held_item reusable.holding (Some reusable.value);
          value = reusable.value;
          known = view_of reusable.holding.seat;
        } };

    ghost invariant = { λ reusable.
        (reusable.holding.seat.table_id ≡ (P.shown reusable.pool).identity)
        × (reusable.holding.number < (P.shown reusable.pool).identity.slots) };
}

/// A pulled value, under a borrow of its pool. Its drop resets it and returns it.
///
/// # Examples
///
/// ```rust
/// let mut item = pool.pull()?; // makes an item, since there is none yet
/// *item = 5;
/// drop(item); // the value is 0 again, and in the pool
/// ```
pub type LazyReusable<'p, T, I, R, K = AnyValue> = LazyReusableOf<
    T,
    &'p LazyObjectPool<T, I, R, K>,
>;

impl<T: Drop, P: SharedLazyPool<T>> LazyReusableOf<T, P> {
    ghost use Rattle.lazy_pools.specs.LazyPool.{IsBroughtBack};
    ghost use Rattle.pool_parts.specs.Page.{held_item, view_of};
    ghost use Rattle.pool_parts.specs.declared.page.word.TheConstants.{PAGE_ITEMS};

    /// Returns the number of the item in its pool, counted from 0.
    pub fn number(&self) -> usize
        ensures value { result ≡ self.now.item.id }
        ensures in_pool { result < (P.shown self.now.pool).identity.slots }
        ensures of_pool { self.now.item.page ≡ (P.shown self.now.pool).identity }
    {
        self.holding.number
    }

    /// Returns the number of the item's page in the pool, counted from 0.
    pub fn page_number(&self) -> usize
        ensures { result ≡ self.now.item.id / 32 }
    {
        self.holding.number / PAGE_ITEMS
    }

    /// Returns the number of the item in its page.
    pub fn page_id(&self) -> PageId
        ensures value { result ≡ self.now.item.id % 32 }
        ensures in_page { result < PAGE_ITEMS }
    {
        (self.holding.number % PAGE_ITEMS) as PageId
    }

    /// Returns a witness of what the holder knows of the pool. It costs one load.
    pub fn witness(&mut self) -> Witness<Option<T>>
        ensures pool { result.seat.table_id ≡ self.old.item.page }
        ensures history { (view_of result.seat).operations ≡ self.old.item.history }
        ensures same_place { self.new.item ≡ self.old.item }
        ensures same_pool { self.new.pool ≡ self.old.pool }
    {
        self.holding.witness(&self.pool.pool().places.shared)
    }

    /// Resets the value and returns it, as the drop does. If the reset rejects it, its place is
    /// empty, and a later pull makes an item there. The note knows the pool's history up to this
    /// return.
    pub fn give_back(self) -> PoolNote<Option<T>>
        ensures { IsBroughtBack (P.Reset.leaves (P.shown self.pool).reset)
            (P.Reset.rejects (P.shown self.pool).reset) self.item self.value result }
    {
        let LazyReusableOf {
            pool,
            holding,
            value,
        } = self;
        pool.pool().give(holding, value)
    }

    /// Drops the value without a reset. Its place is empty, and a later pull makes an item there.
    /// The note knows the pool's history up to this return.
    pub fn discard(self) -> PoolNote<Option<T>>
        ensures { IsReturned (record self.item { value = None }) result }
    {
        let (value, note) = self.take_out();
        drop(value);
        note
    }

    /// Takes the value out of its pool without a reset. Its place is empty, and a later pull makes
    /// an item there.
    pub fn detach(self) -> T
        ensures { result ≡ self.value }
    {
        self.take_out().0
    }

    /// Takes the value out, and returns its place empty.
    fn take_out(self) -> (T, PoolNote<Option<T>>)
        ensures value { result.0 ≡ self.value }
        ensures returned { IsReturned (record self.item { value = None }) result.1 }
    {
        let LazyReusableOf {
            pool,
            holding,
            value,
        } = self;
        let note = pool.pool().give_empty(holding);
        (value, note)
    }
}

impl<T: Drop, P: SharedLazyPool<T>> Deref for LazyReusableOf<T, P> {
    type Target = T;

    ghost deref_gives = { λ reusable value. value ≡ reusable.value };

    fn deref(&self) -> &T {
        &self.value
    }
}

impl<T: Drop, P: SharedLazyPool<T>> DerefMut for LazyReusableOf<T, P> {
    ghost use Rattle.std.specs.Borrow.{Lends, sem};
    ghost use Rattle.lazy_pools.specs.LazyPool.{with_value};
    ghost use Rattle.lazy_pools.specs.contracts.lazy_reusable.LazyReusableOf.{the_row};

    ghost deref_mut_gives = { λ reusable value. value ≡ reusable.value };

    fn deref_mut(&mut self) -> &mut T
        ensures* writes_back { sem 𝓛
            (Lends (the_row T.row P.row P.Init.row P.Reset.row P.Kept.row P.SharedLazyPool
            P.Init.Init P.Reset.Reset P.Kept.Clean) T.row self.entry result (with_value self.old)) }
        ensures shows { result.now ≡ self.old.value }
    {
        &mut self.value
    }
}

impl<T: Drop, P: SharedLazyPool<T>> Reusable<T> for LazyReusableOf<T, P> {
    ghost use Rattle.lazy_pools.specs.LazyPool.{with_value as with_item_value};
    ghost use Rattle.pool_parts.specs.Answers.{IsMadeOrReset};
    ghost use Rattle.pool_parts.specs.Page.{IsReturned};

    type Note = PoolNote<Option<T>>;

    ghost value_of = { λ reusable. reusable.value };

    ghost with_value = { with_item_value };

    ghost keeps = { λ value.
        P.Kept.meets value × IsMadeOrReset P.Init.answers P.Reset.leaves value };

    ghost leaves = { λ reusable. P.Reset.leaves (P.shown reusable.pool).reset };

    ghost rejects = { λ reusable. P.Reset.rejects (P.shown reusable.pool).reset };

    ghost is_returned = { λ reusable. IsReturned reusable.item };

    ghost is_emptied = { λ reusable. IsReturned (record reusable.item { value = None }) };

    #[inline(always)]
    fn value(&self) -> &T {
        &self.value
    }

    #[inline(always)]
    fn value_mut(&mut self) -> &mut T {
        &mut self.value
    }

    #[inline(always)]
    fn try_reset(self) -> Result<LazyReusableOf<T, P>, PoolNote<Option<T>>> {
        let LazyReusableOf {
            pool,
            holding,
            value,
        } = self;
        match pool.pool().reset.try_reset(value) {
            Some(value) => Ok(LazyReusableOf {
                pool,
                holding,
                value,
            }),
            None => Err(pool.pool().give_empty(holding)),
        }
    }

    fn give_kept(self) -> PoolNote<Option<T>> {
        let LazyReusableOf {
            pool,
            holding,
            value,
        } = self;
        pool.pool().give_kept(holding, value)
    }
}

impl<T: Drop, P: SharedLazyPool<T>> Drop for LazyReusableOf<T, P> {
    fn drop(self) {
        self.give_back();
    }
}

impl<T: Debug + Drop, P: SharedLazyPool<T>> Debug for LazyReusableOf<T, P> {
    ghost debug_output = { λ reusable. T.debug_output reusable.value };

    fn fmt<W: Write>(&self, f: &mut Formatter<W>) -> fmt::Result {
        Debug::fmt(&self.value, f)
    }
}

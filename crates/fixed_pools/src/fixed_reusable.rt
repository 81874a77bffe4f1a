//! A value that was pulled from a fixed pool, with a borrow or an owner of the pool.
ghost use Rattle.std.specs.Prelude.{◌≡◌, ◌≢◌, ◌<◌, ◌/◌, ◌%◌};
ghost use Rattle.std.specs.Arc.{arc_value};
ghost use Rattle.atomic_table.specs.Seated.{TableId};
ghost use Rattle.pool_parts.specs.Page.{held_item, view_of};

use crate::fixed_object_pool::{FixedObjectPool, PoolNote};
use pool_parts::clean::{AnyValue, Clean};
use pool_parts::closures::{Init, Reset};
use pool_parts::page::inside::{Holding, PulledItem};
use pool_parts::page::{PAGE_ITEMS, PageId, PageNote, Witness};
use pool_parts::reusable::Reusable;
use std::fmt::{self, Debug, Formatter, Write};
use std::marker::Model;
use std::ops::{Deref, DerefMut};
use std::sync::Arc;

/// A fixed pool as a reusable has it: by a borrow or with an owner.
pub trait SharedFixedPool<T>: Drop {
    ghost use Rattle.fixed_pools.specs.FixedPool.{FixedView, fixed_view};

    /// What makes the pool's values.
    type Init: Init<T, Self::Kept>;

    /// What resets them.
    type Reset: Reset<T, Self::Kept>;

    /// The condition that they meet.
    type Kept: Clean<T>;

    /// What contracts see of the pool.
    ghost shown: { Self → FixedView T Self.Reset };

    /// Returns the pool.
    fn pool(&self) -> &FixedObjectPool<T, Self::Init, Self::Reset, Self::Kept>
        ensures { fixed_view result.now ≡ shown self.now };
}

impl<T: Drop, I: Init<T, K>, R: Reset<T, K>, K: Clean<T>> SharedFixedPool<T>
    for &FixedObjectPool<T, I, R, K> {
    ghost use Rattle.fixed_pools.specs.FixedPool.{fixed_view};

    type Init = I;

    type Reset = R;

    type Kept = K;

    ghost shown = { λ pool. fixed_view pool.now };

    fn pool(&self) -> &FixedObjectPool<T, I, R, K> {
        self
    }
}

impl<T: Drop, I: Init<T, K>, R: Reset<T, K>, K: Clean<T>> SharedFixedPool<T>
    for Arc<FixedObjectPool<T, I, R, K>> {
    ghost use Rattle.fixed_pools.specs.FixedPool.{fixed_view};

    type Init = I;

    type Reset = R;

    type Kept = K;

    ghost shown = { λ pool. fixed_view (arc_value pool) };

    fn pool(&self) -> &FixedObjectPool<T, I, R, K> {
        self
    }
}

/// A pulled value, with a shared pool. Its drop resets it and returns it to the pool.
///
/// In a clause it is the pool, the item, the value, and what its user knows.
pub struct FixedReusableOf<T: Drop, P: SharedFixedPool<T>> {
    pool: P,
    holding: Holding<T>,
    value: T,
}

impl<T: Drop, P: SharedFixedPool<T>> Model for FixedReusableOf<T, P> {
    ghost use Rattle.std.specs.Prelude.{◌≡◌, ◌<◌};
    ghost use Rattle.pool_parts.specs.Item.{PulledView};
    ghost use Rattle.pool_parts.specs.Page.{held_item, view_of};

    ghost Value = { PulledView P T T };

    ghost view = { λ reusable.
        record {
          pool = reusable.pool;
          item = held_item reusable.holding reusable.value;
          value = reusable.value;
          known = view_of reusable.holding.seat;
        } };

    ghost invariant = { λ reusable.
        (reusable.holding.seat.table_id ≡ (P.shown reusable.pool).identity)
        × (reusable.holding.number < (P.shown reusable.pool).identity.slots) };
}

/// A pulled value, with a borrow of its pool. Its drop resets it and returns it.
///
/// # Examples
///
/// ```rust
/// let mut item = pool.pull()?; // takes no memory
/// *item = 5;
/// drop(item); // the value is 0 again, and in the pool
/// ```
pub type FixedReusable<'p, T, I, R, K = AnyValue> = FixedReusableOf<
    T,
    &'p FixedObjectPool<T, I, R, K>,
>;

impl<T: Drop, P: SharedFixedPool<T>> FixedReusableOf<T, P> {
    ghost use Rattle.fixed_pools.specs.FixedPool.{IsSame};
    ghost use Rattle.pool_parts.specs.Page.{IsGivenBack, held_item, view_of};
    ghost use Rattle.pool_parts.specs.declared.page.word.TheConstants.{PAGE_ITEMS};

    pub(crate) fn new(pool: P, pulled: PulledItem<T>) -> FixedReusableOf<T, P>
        requires of_pool { pulled.holding.seat.table_id ≡ (P.shown pool).identity }
        requires in_pool { pulled.holding.number < (P.shown pool).identity.slots }
        ensures pool { result.pool ≡ pool }
        ensures item { result.item ≡ held_item pulled.holding pulled.value }
        ensures view { result.known ≡ view_of pulled.holding.seat }
    {
        let PulledItem { holding, value } = pulled;
        FixedReusableOf {
            pool,
            holding,
            value,
        }
    }

    /// Returns the number of the item in its pool, counted from 0.
    pub fn number(&self) -> usize
        ensures value { result ≡ self.now.item.id }
        ensures in_pool { result < (P.shown self.now.pool).identity.slots }
        ensures of_pool { self.now.item.page ≡ (P.shown self.now.pool).identity }
    {
        self.holding.number
    }

    /// Returns the number of the item's page in the pool, counted from 0.
    pub fn page_number(&self) -> usize
        ensures { result ≡ self.now.item.id / 32 }
    {
        self.holding.number / PAGE_ITEMS
    }

    /// Returns the number of the item in its page.
    pub fn page_id(&self) -> PageId
        ensures value { result ≡ self.now.item.id % 32 }
        ensures in_page { result < PAGE_ITEMS }
    {
        (self.holding.number % PAGE_ITEMS) as PageId
    }

    /// Returns what the holder knows of the pool, for another user. It costs one load.
    pub fn witness(&mut self) -> Witness<T>
        ensures pool { result.seat.table_id ≡ self.old.item.page }
        ensures history { (view_of result.seat).operations ≡ self.old.item.history }
        ensures same { IsSame self.old self.new }
    {
        self.holding.witness(&self.pool.pool().items.shared)
    }

    /// Ensures that this item and another that is held of the pool are two: their numbers differ.
    ///
    /// It costs seven loads, and changes neither item.
    pub fn differs_from<Q: SharedFixedPool<T>>(&mut self, other: &mut FixedReusableOf<T, Q>)
        requires pool { other.old.item.page ≡ self.old.item.page }
        ensures differ { self.old.item.id ≢ other.old.item.id }
        ensures same { IsSame self.old self.new }
        ensures same_other { IsSame other.old other.new }
    {
        let items = &self.pool.pool().items.shared;
        items.are_two(&mut self.holding, &mut other.holding);
    }

    /// Resets the value and returns it, as the drop does. The note knows the pool's history up to
    /// this return.
    pub fn give_back(self) -> PoolNote<T>
        ensures { IsGivenBack (P.Reset.leaves (P.shown self.pool).reset) self.item result }
    {
        let FixedReusableOf {
            pool,
            holding,
            value,
        } = self;
        pool.pool().give(holding, value)
    }

    /// Returns the borrow or the owner of the pool that the reusable keeps.
    pub fn owner(&self) -> &P
        ensures { result.now ≡ self.now.pool }
    {
        &self.pool
    }

    /// Resets the value and returns it, and hands out the borrow or the owner of the pool too.
    pub fn give_back_with_owner(self) -> (P, PoolNote<T>)
        ensures owner { result.0 ≡ self.pool }
        ensures given_back { IsGivenBack (P.Reset.leaves (P.shown self.pool).reset) self.item result.1 }
    {
        let FixedReusableOf {
            pool,
            holding,
            value,
        } = self;
        let note = pool.pool().give(holding, value);
        (pool, note)
    }
}

impl<T: Drop, P: SharedFixedPool<T>> Deref for FixedReusableOf<T, P> {
    type Target = T;

    ghost deref_gives = { λ reusable value. value ≡ reusable.item.value };

    fn deref(&self) -> &T {
        &self.value
    }
}

impl<T: Drop, P: SharedFixedPool<T>> DerefMut for FixedReusableOf<T, P> {
    ghost use Rattle.std.specs.Borrow.{Lends, sem};
    ghost use Rattle.fixed_pools.specs.FixedPool.{with_value};
    ghost use Rattle.fixed_pools.specs.contracts.fixed_reusable.FixedReusableOf.{the_row};

    ghost deref_mut_gives = { λ reusable value. value ≡ reusable.item.value };

    fn deref_mut(&mut self) -> &mut T
        ensures* writes_back { sem 𝓛
            (Lends (the_row T.row P.row P.Init.row P.Reset.row P.Kept.row P.SharedFixedPool
            P.Init.Init P.Reset.Reset P.Kept.Clean) T.row self.entry result (with_value self.old)) }
        ensures shows { result.now ≡ self.old.item.value }
    {
        &mut self.value
    }
}

impl<T: Drop, P: SharedFixedPool<T>> Reusable<T> for FixedReusableOf<T, P> {
    ghost use Rattle.fixed_pools.specs.FixedPool.{with_value as with_item_value};
    ghost use Rattle.pool_parts.specs.Answers.{IsMadeOrReset};
    ghost use Rattle.pool_parts.specs.Page.{IsReturned};

    type Note = PoolNote<T>;

    ghost value_of = { λ reusable. reusable.item.value };

    ghost with_value = { with_item_value };

    ghost keeps = { λ value.
        P.Kept.meets value × IsMadeOrReset P.Init.answers P.Reset.leaves value };

    ghost leaves = { λ reusable. P.Reset.leaves (P.shown reusable.pool).reset };

    ghost is_returned = { λ reusable. IsReturned reusable.item };

    #[inline(always)]
    fn value(&self) -> &T {
        &self.value
    }

    #[inline(always)]
    fn value_mut(&mut self) -> &mut T {
        &mut self.value
    }

    #[inline(always)]
    fn try_reset(self) -> Result<FixedReusableOf<T, P>, PoolNote<T>> {
        let FixedReusableOf {
            pool,
            holding,
            mut value,
        } = self;
        pool.pool().reset.reset(&mut value);
        Ok(FixedReusableOf {
            pool,
            holding,
            value,
        })
    }

    fn give_kept(self) -> PoolNote<T> {
        let FixedReusableOf {
            pool,
            holding,
            value,
        } = self;
        PageNote {
            seat: pool.pool().items.give(holding, value),
        }
    }
}

impl<T: Drop, P: SharedFixedPool<T>> Drop for FixedReusableOf<T, P> {
    fn drop(self) {
        self.give_back();
    }
}

impl<T: Debug + Drop, P: SharedFixedPool<T>> Debug for FixedReusableOf<T, P> {
    ghost debug_output = { λ reusable. T.debug_output reusable.item.value };

    fn fmt<W: Write>(&self, f: &mut Formatter<W>) -> fmt::Result {
        Debug::fmt(&self.value, f)
    }
}

//! Pulls that make their item by a closure of the call, whose error reaches the caller.
ghost use Rattle.std.specs.Prelude.{◌≡◌, ◌*◌, ⊤, Ok, Err, IfOk, IfErr, ◌+◌, IfSome};
ghost use Rattle.std.specs.Arc.{arc_value};

use super::LazyObjectPool;
use super::lazy_refused::PullWithError;
use crate::lazy_owned_reusable::LazyOwnedReusable;
use crate::lazy_reusable::{LazyReusable, LazyReusableOf, SharedLazyPool};
use pool_parts::clean::Clean;
use pool_parts::closures::{Init, Reset};
use pool_parts::page::inside::PulledItem;
use std::sync::{Arc, Wait};
use std::time::{Clock, Duration};

impl<T: Drop, I: Init<T, K>, R: Reset<T, K>, K: Clean<T>> LazyObjectPool<T, I, R, K> {
    ghost use Rattle.lazy_pools.specs.LazyPool.{IsPulledPlace, PullsMade, RefusesWith, lazy_view};
    ghost use Rattle.pool_parts.specs.Item.{IsPulled, new_user};
    ghost use Rattle.pool_parts.specs.Page.{view_of, held_item};
    ghost use Rattle.fixed_pools.specs.FixedPool.{returns_since, IsWithin};

    /// Pulls a free item. If its place is empty, `make` makes the value in place of the pool's
    /// `init`. It runs under no lock, and the item is in use meanwhile.
    ///
    /// # Errors
    ///
    /// - `Limit` with a note as evidence that no item was free at one moment of the call, as `pull`
    ///   says.
    /// - `Make` with the error of `make`. The place is free again, and empty.
    /// - `Closed` if the pool was closed.
    pub fn pull_with<E: Drop, F: FnOnce() -> Result<T, E> + Drop>(
        &self,
        make: F,
    ) -> Result<LazyReusable<'_, T, I, R, K>, PullWithError<T, E>>
        requires may_call { F.pre make }
        requires each_meets { (value : T) → F.post make (Ok value) → K.meets value }
        ensures pool { IfOk result (λ item. item.pool.now ≡ self.now) }
        ensures pulled { IfOk result (λ item.
            PullsMade K.meets (lazy_view self.now) (λ value. F.post make (Ok value)) item.item
            item.value) }
        ensures steps { IfOk result (λ item.
            IsWithin ((lazy_view self.now).pages * (returns_since item.known + 1)) 0 0 item.known) }
        ensures refused { IfErr result
            (RefusesWith (lazy_view self.now) ⊥ ⊤ (λ cause. F.post make (Err cause))) }
    {
        self.reusable_with(self, self.take()?, make)
    }

    /// Pulls a free item, whose value `make` makes if its place is empty. The reusable owns the
    /// pool with others, which are one more before an item is taken.
    ///
    /// # Errors
    ///
    /// - `Memory` if the pool can have no more owners.
    /// - `Limit`, `Make` and `Closed` as `pull_with` says.
    pub fn pull_owned_with<E: Drop, F: FnOnce() -> Result<T, E> + Drop>(
        self: &Arc<Self>,
        make: F,
    ) -> Result<LazyOwnedReusable<T, I, R, K>, PullWithError<T, E>>
        requires may_call { F.pre make }
        requires each_meets { (value : T) → F.post make (Ok value) → K.meets value }
        ensures pool { IfOk result (λ item. arc_value item.pool ≡ arc_value self.now) }
        ensures pulled { IfOk result (λ item.
            PullsMade K.meets (lazy_view (arc_value self.now))
            (λ value. F.post make (Ok value)) item.item item.value) }
        ensures steps { IfOk result (λ item.
            IsWithin ((lazy_view (arc_value self.now)).pages * (returns_since item.known
            + 1)) 0 0 item.known) }
        ensures refused { IfErr result
            (RefusesWith (lazy_view (arc_value self.now)) ⊤ ⊤ (λ cause. F.post make (Err cause))) }
    {
        let Ok(owner) = Arc::try_clone(self) else {
            return Err(PullWithError::Memory);
        };
        self.reusable_with(owner, self.take()?, make)
    }

    /// Pulls a free item, or waits until one is returned, however long. If its place is empty,
    /// `make` makes the value.
    ///
    /// # Errors
    ///
    /// - `Make` with the error of `make`. The place is free again, and empty.
    /// - `Closed` if the pool was closed, also while the call waits.
    pub fn pull_wait_with<W: Wait, E: Drop, F: FnOnce() -> Result<T, E> + Drop>(
        &self,
        rt: &W,
        make: F,
    ) -> Result<LazyReusable<'_, T, I, R, K>, PullWithError<T, E>>
        requires may_call { F.pre make }
        requires each_meets { (value : T) → F.post make (Ok value) → K.meets value }
        ensures pool { IfOk result (λ item. item.pool.now ≡ self.now) }
        ensures pulled { IfOk result (λ item.
            PullsMade K.meets (lazy_view self.now) (λ value. F.post make (Ok value)) item.item
            item.value) }
        ensures refused { IfErr result
            (RefusesWith (lazy_view self.now) ⊥ ⊥ (λ cause. F.post make (Err cause))) }
    {
        self.reusable_with(self, self.take_or_wait(rt)?, make)
    }

    /// Pulls a free item, or waits for `time` at most until one is returned. If its place is empty,
    /// `make` makes the value.
    ///
    /// `time` is a limit on the wait and on when `make` begins, and not on how long `make` takes.
    ///
    /// # Errors
    ///
    /// - `Limit` as `pull_timeout`, with a note as evidence that no item was free at one moment of
    ///   the call.
    /// - `Make` with the error of `make`. The place is free again, and empty.
    /// - `Closed` if the pool was closed, also while the call waits.
    pub fn pull_timeout_with<W: Wait + Clock, E: Drop, F: FnOnce() -> Result<T, E> + Drop>(
        &self,
        rt: &W,
        time: Duration,
        make: F,
    ) -> Result<LazyReusable<'_, T, I, R, K>, PullWithError<T, E>>
        requires may_call { F.pre make }
        requires each_meets { (value : T) → F.post make (Ok value) → K.meets value }
        ensures pool { IfOk result (λ item. item.pool.now ≡ self.now) }
        ensures pulled { IfOk result (λ item.
            PullsMade K.meets (lazy_view self.now) (λ value. F.post make (Ok value)) item.item
            item.value) }
        ensures refused { IfErr result
            (RefusesWith (lazy_view self.now) ⊥ ⊤ (λ cause. F.post make (Err cause))) }
    {
        self.reusable_with(self, self.take_or_wait_for(rt, time)?, make)
    }

    /// Pulls a free item, whose value `make` makes if its place is empty, or waits until one is
    /// returned, however long. The reusable owns the pool with others.
    ///
    /// # Errors
    ///
    /// - At once `Memory` if the pool can have no more owners.
    /// - `Make` and `Closed` as `pull_wait_with` says.
    pub fn pull_owned_wait_with<W: Wait, E: Drop, F: FnOnce() -> Result<T, E> + Drop>(
        self: &Arc<Self>,
        rt: &W,
        make: F,
    ) -> Result<LazyOwnedReusable<T, I, R, K>, PullWithError<T, E>>
        requires may_call { F.pre make }
        requires each_meets { (value : T) → F.post make (Ok value) → K.meets value }
        ensures pool { IfOk result (λ item. arc_value item.pool ≡ arc_value self.now) }
        ensures pulled { IfOk result (λ item.
            PullsMade K.meets (lazy_view (arc_value self.now)) (λ value. F.post make (Ok value))
            item.item item.value) }
        ensures refused { IfErr result
            (RefusesWith (lazy_view (arc_value self.now)) ⊤ ⊥ (λ cause. F.post make (Err cause))) }
    {
        let Ok(owner) = Arc::try_clone(self) else {
            return Err(PullWithError::Memory);
        };
        self.reusable_with(owner, self.take_or_wait(rt)?, make)
    }

    /// Pulls a free item, whose value `make` makes if its place is empty, or waits for `time` at
    /// most until one is returned. The reusable owns the pool with others.
    ///
    /// # Errors
    ///
    /// - At once `Memory` if the pool can have no more owners.
    /// - `Limit`, `Make` and `Closed` as `pull_timeout_with` says.
    pub fn pull_owned_timeout_with<W: Wait + Clock, E: Drop, F: FnOnce() -> Result<T, E> + Drop>(
        self: &Arc<Self>,
        rt: &W,
        time: Duration,
        make: F,
    ) -> Result<LazyOwnedReusable<T, I, R, K>, PullWithError<T, E>>
        requires may_call { F.pre make }
        requires each_meets { (value : T) → F.post make (Ok value) → K.meets value }
        ensures pool { IfOk result (λ item. arc_value item.pool ≡ arc_value self.now) }
        ensures pulled { IfOk result (λ item.
            PullsMade K.meets (lazy_view (arc_value self.now)) (λ value. F.post make (Ok value))
            item.item item.value) }
        ensures refused { IfErr result
            (RefusesWith (lazy_view (arc_value self.now)) ⊤ ⊤ (λ cause. F.post make (Err cause))) }
    {
        let Ok(owner) = Arc::try_clone(self) else {
            return Err(PullWithError::Memory);
        };
        self.reusable_with(owner, self.take_or_wait_for(rt, time)?, make)
    }

    /// Returns the reusable of a place that was taken. If the place is empty, it makes the value by
    /// the closure. If that fails, the place is returned.
    fn reusable_with<P: SharedLazyPool<T>, E: Drop, F: FnOnce() -> Result<T, E> + Drop>(
        &self,
        pool: P,
        pulled: PulledItem<Option<T>>,
        make: F,
    ) -> Result<LazyReusableOf<T, P>, PullWithError<T, E>>
        requires same_pool { (P.shown pool).identity ≡ (lazy_view self.now).identity }
        requires pulled { IsPulledPlace K.meets I.answers R.leaves (lazy_view self.now) pulled }
        requires may_call { F.pre make }
        requires each_meets { (value : T) → F.post make (Ok value) → K.meets value }
        ensures pool { IfOk result (λ item. item.pool ≡ pool) }
        ensures pulled { IfOk result (λ item.
            PullsMade K.meets (lazy_view self.now) (λ value. F.post make (Ok value))
            item.item item.value) }
        ensures known { IfOk result (λ item. item.known ≡ view_of pulled.holding.seat) }
        ensures refused { IfErr result
            (RefusesWith (lazy_view self.now) ⊥ ⊥ (λ cause. F.post make (Err cause))) }
    {
        let PulledItem { holding, value } = pulled;
        if let Some(value) = value {
            return Ok(LazyReusableOf {
                pool,
                holding,
                value,
            });
        }
        match make() {
            Ok(value) => {
                self.count_made();
                Ok(LazyReusableOf {
                    pool,
                    holding,
                    value,
                })
            }
            Err(cause) => {
                self.give_place(holding);
                Err(PullWithError::Make(cause))
            }
        }
    }
}

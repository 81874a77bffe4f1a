//! Pulls that wait for a place to be returned.
//!
//! No contract says that who waits is woken: `ci/waiting_model` explores these steps, and knows
//! their lines.
ghost use Rattle.std.specs.Prelude.{◌≡◌, ⊤, None, IfOk, IfErr};
ghost use Rattle.std.specs.Arc.{arc_value};

use super::LazyObjectPool;
use super::lazy_refused::NoPlace;
use crate::lazy_owned_reusable::LazyOwnedReusable;
use crate::lazy_reusable::LazyReusable;
use fixed_pools::fixed_object_pool::PoolNote;
use pool_parts::PullError;
use pool_parts::clean::Clean;
use pool_parts::closures::{Init, Reset};
use pool_parts::page::inside::PulledItem;
use std::sync::{Arc, Wait};
use std::time::{Clock, Duration, Instant};

impl<T: Drop, I: Init<T, K>, R: Reset<T, K>, K: Clean<T>> LazyObjectPool<T, I, R, K> {
    ghost use Rattle.fixed_pools.specs.FixedPool.{IsFullNote};
    ghost use Rattle.lazy_pools.specs.LazyPool.{IsPulledPlace, Pulls, TakesNone, lazy_view};
    ghost use Rattle.pool_parts.specs.Answers.{RefusesOrClosed};
    ghost use Rattle.pool_parts.specs.Item.{new_user};
    ghost use Rattle.pool_parts.specs.Page.{view_of};

    /// Pulls a free item, or waits until one is returned, however long.
    ///
    /// # Errors
    ///
    /// - `Init` if `init` returned `None`. The place is free again, and empty.
    /// - `Closed` if the pool was closed, also while the call waits.
    pub fn pull_wait<W: Wait>(&self, rt: &W) -> Result<LazyReusable<'_, T, I, R, K>, PullError>
        ensures pool { IfOk result (λ item. item.pool.now ≡ self.now) }
        ensures pulled { IfOk result (λ item.
            Pulls K.meets I.answers R.leaves (lazy_view self.now) item.item item.value) }
        ensures refused { IfErr result
            (RefusesOrClosed ⊥ (I.answers (lazy_view self.now).init None) ⊥) }
    {
        self.reusable(self, self.take_or_wait(rt)?)
    }

    /// Pulls a free item, or waits for `time` at most until one is returned. With no time it waits
    /// for nobody.
    ///
    /// `time` is a limit on the wait and on when `init` begins, and not on how long `init` takes.
    /// An `init` that takes long keeps a limit of its own.
    ///
    /// # Errors
    ///
    /// - `Limit` if a last try after that time found no item free, or an empty place, for which
    ///   `init` would begin too late; or if the clock can't be read.
    /// - `Init` if `init` returned `None`. The place is free again, and empty.
    /// - `Closed` if the pool was closed, also while the call waits.
    pub fn pull_timeout<W: Wait + Clock>(
        &self,
        rt: &W,
        time: Duration,
    ) -> Result<LazyReusable<'_, T, I, R, K>, PullError>
        ensures pool { IfOk result (λ item. item.pool.now ≡ self.now) }
        ensures pulled { IfOk result (λ item.
            Pulls K.meets I.answers R.leaves (lazy_view self.now) item.item item.value) }
        ensures refused { IfErr result
            (RefusesOrClosed ⊥ (I.answers (lazy_view self.now).init None) ⊤) }
    {
        self.reusable(self, self.take_or_wait_for(rt, time)?)
    }

    /// Pulls a free item, or waits until one is returned, however long. The reusable owns the pool
    /// with others.
    ///
    /// # Errors
    ///
    /// - At once `Memory` if the pool can have no more owners.
    /// - `Init` and `Closed` as `pull_wait` says.
    pub fn pull_owned_wait<W: Wait>(
        self: &Arc<Self>,
        rt: &W,
    ) -> Result<LazyOwnedReusable<T, I, R, K>, PullError>
        ensures pool { IfOk result (λ item. arc_value item.pool ≡ arc_value self.now) }
        ensures pulled { IfOk result (λ item.
            Pulls K.meets I.answers R.leaves (lazy_view (arc_value self.now)) item.item
            item.value) }
        ensures refused { IfErr result
            (RefusesOrClosed ⊤ (I.answers (lazy_view (arc_value self.now)).init None) ⊥) }
    {
        let owner = Arc::try_clone(self)?;
        self.reusable(owner, self.take_or_wait(rt)?)
    }

    /// Pulls a free item, or waits for `time` at most until one is returned. The reusable owns the
    /// pool with others.
    ///
    /// # Errors
    ///
    /// - At once `Memory` if the pool can have no more owners.
    /// - `Limit`, `Init` and `Closed` as `pull_timeout` says.
    pub fn pull_owned_timeout<W: Wait + Clock>(
        self: &Arc<Self>,
        rt: &W,
        time: Duration,
    ) -> Result<LazyOwnedReusable<T, I, R, K>, PullError>
        ensures pool { IfOk result (λ item. arc_value item.pool ≡ arc_value self.now) }
        ensures pulled { IfOk result (λ item.
            Pulls K.meets I.answers R.leaves (lazy_view (arc_value self.now)) item.item
            item.value) }
        ensures refused { IfErr result
            (RefusesOrClosed ⊤ (I.answers (lazy_view (arc_value self.now)).init None) ⊤) }
    {
        let owner = Arc::try_clone(self)?;
        self.reusable(owner, self.take_or_wait_for(rt, time)?)
    }

    /// Takes a free place, or waits until one is returned or the pool is closed.
    pub(super) fn take_or_wait<W: Wait>(&self, rt: &W) -> Result<PulledItem<Option<T>>, NoPlace<T>>
        ensures pulled { IfOk result (IsPulledPlace K.meets I.answers R.leaves (lazy_view self.now)) }
        ensures none { IfErr result (TakesNone (lazy_view self.now) ⊥) }
    {
        match self.take() {
            Ok(pulled) => Ok(pulled),
            Err(NoPlace::Closed) => Err(NoPlace::Closed),
            Err(NoPlace::Full(_)) => self.wait_for_place(rt),
        }
    }

    /// Takes a free place, or waits until one is returned or the pool is closed, for `time` at
    /// most.
    pub(super) fn take_or_wait_for<W: Wait + Clock>(
        &self,
        rt: &W,
        time: Duration,
    ) -> Result<PulledItem<Option<T>>, NoPlace<T>>
        ensures pulled { IfOk result (IsPulledPlace K.meets I.answers R.leaves (lazy_view self.now)) }
        ensures none { IfErr result (TakesNone (lazy_view self.now) ⊤) }
    {
        match self.take() {
            Ok(pulled) => Ok(pulled),
            Err(NoPlace::Closed) => Err(NoPlace::Closed),
            Err(NoPlace::Full(full)) => self.wait_for_place_within(rt, time, full),
        }
    }

    /// Waits for a place: the thread counts as waiting, and tries again each time that it is woken.
    #[cold]
    fn wait_for_place<W: Wait>(&self, rt: &W) -> Result<PulledItem<Option<T>>, NoPlace<T>>
        ensures pulled { IfOk result (IsPulledPlace K.meets I.answers R.leaves (lazy_view self.now)) }
        ensures none { IfErr result (TakesNone (lazy_view self.now) ⊥) }
    {
        self.waiters.enter();
        for _ in rt.forever() {
            let seen = self.waiters.seen();
            match self.take() {
                Ok(pulled) => {
                    self.waiters.leave();
                    return Ok(pulled);
                }
                Err(NoPlace::Closed) => {
                    self.waiters.leave();
                    return Err(NoPlace::Closed);
                }
                Err(NoPlace::Full(_)) => self.waiters.sleep(rt, seen),
            }
        }
        unreachable!()
    }

    /// Waits for a place, for `time` at most: the thread counts as waiting, and tries again each
    /// time that it is woken. After that time it returns an empty place, for which `init` would
    /// begin too late. A clock that can't be read ends the wait.
    #[cold]
    fn wait_for_place_within<W: Wait + Clock>(
        &self,
        rt: &W,
        time: Duration,
        full: PoolNote<Option<T>>,
    ) -> Result<PulledItem<Option<T>>, NoPlace<T>>
        requires full { IsFullNote (lazy_view self.now).identity
            (new_user (lazy_view self.now).opening (view_of full.seat).user) full }
        ensures pulled { IfOk result (IsPulledPlace K.meets I.answers R.leaves (lazy_view self.now)) }
        ensures none { IfErr result (TakesNone (lazy_view self.now) ⊤) }
    {
        let start = Instant::now(rt).ok();
        self.waiters.enter();
        for _ in rt.forever() {
            let seen = self.waiters.seen();
            match self.take() {
                Ok(pulled) => {
                    self.waiters.leave();
                    if pulled.value.is_none() && left_of(rt, start, time).is_none() {
                        self.give_place(pulled.holding);
                        return Err(NoPlace::Full(full));
                    }
                    return Ok(pulled);
                }
                Err(NoPlace::Closed) => {
                    self.waiters.leave();
                    return Err(NoPlace::Closed);
                }
                Err(NoPlace::Full(_)) => {
                    let Some(left) = left_of(rt, start, time) else {
                        self.waiters.give_up();
                        return Err(NoPlace::Full(full));
                    };
                    self.waiters.sleep_for(rt, seen, left);
                }
            }
        }
        unreachable!()
    }
}

/// Returns what is left of a time since its start: `None` if nothing is, or if the clock can't be
/// read.
fn left_of<C: Clock>(clock: &C, start: Option<Instant>, time: Duration) -> Option<Duration> {
    let gone = start?.elapsed(clock).ok()?;
    let left = time.checked_sub(gone)?;
    if left.is_zero() { None } else { Some(left) }
}

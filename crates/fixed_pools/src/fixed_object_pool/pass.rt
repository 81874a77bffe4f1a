//! How a pull passes over the words of a pool, each read once and each bit that was set in it tried
//! once, and how it goes round until it has an item or finds that no item was free at one moment.
//!
//! That no item was free rests on which words are read, and in which order, so the prover tells a
//! change.
ghost use Rattle.std.specs.Prelude.{◌≡◌, ◌+◌, ◌-◌, ◌*◌, ◌<◌, ◌≤◌, ℕ, MatchOption, MatchResult};
ghost use Rattle.std.specs.Int.{bit_at};

use super::items::FixedItems;
use super::order::Order;
use pool_parts::clean::Clean;
use pool_parts::page::PAGE_ITEMS;
use pool_parts::page::inside::{TakenValue, UserSeat};
use std::snapshot::Snapshot;

impl<T, K: Clean<T>> FixedItems<T, K> {
    ghost use Rattle.fixed_pools.specs.FixedCount.{GoesOver, IsReady, MissesWord, PassesAll, PassesOver, ReadsOn, Takes, is_beside, passes_of};
    ghost use Rattle.fixed_pools.specs.FixedPool.{IsFullSince, pool_of, returns_between};
    ghost use Rattle.pool_parts.specs.PageRule.{IsOutNow};

    /// Takes an item that is free, by a user that has read the first word. `None` if no item was
    /// free at one moment. Most pulls take one of the first word, so that is inlined.
    #[inline(always)]
    pub(super) fn take_or_full(
        &self,
        seat: &mut UserSeat<T>,
        start: usize,
        word: u32,
        order: Option<Order>,
    ) -> Option<TakenValue<T>>
        requires ready { IsReady (pool_of self.now) seat.old }
        requires in_pool { start < (pool_of self.now).words }
        requires found { (bit : ℕ) → bit < 32 → bit_at word bit ≡ 0
            → IsOutNow seat.old.me.0 (32 * start + bit) }
        ensures steps { GoesOver ((pool_of self.now).words * passes_of result
            (returns_between seat.old.me.0.operations seat.new.me.0.operations)) 1 seat.old
            seat.new }
        ensures outcome { MatchOption result (ReadsOn seat.old.me seat.new.me
            × IsFullSince (pool_of self.now).slots seat.old.me.0.operations seat.new.me.0)
            (λ taken. Takes K.meets (pool_of self.now) taken seat.old.me seat.new.me) }
    {
        let first = Snapshot::of(&*seat);
        if let Some(taken) = self.shared.take_lowest(seat, start, word) {
            return Some(taken);
        }
        // Moved once more, so that an item of the first word stays in registers.
        let taken = self.take_further(seat, start, order, first)?;
        Some(taken)
    }

    /// Takes an item that is free, by a user that found each item of its first word in use. `first`
    /// is the user as it was before.
    ///
    /// It passes over the words again and again, until it has an item, or until a pass finds the
    /// first word empty and the others count as many returns as in the pass before. Then no item
    /// was free when the first word was read: each of the others was seen in use before that, and
    /// came back neither before nor until it was read again.
    ///
    /// It isn't inlined, so that a pull of an item of the first word is short.
    #[inline(never)]
    fn take_further(
        &self,
        seat: &mut UserSeat<T>,
        start: usize,
        order: Option<Order>,
        first: Snapshot<UserSeat<T>>,
    ) -> Option<TakenValue<T>>
        requires ready { IsReady (pool_of self.now) first.value }
        requires in_pool { start < (pool_of self.now).words }
        requires missed { MissesWord start first.value seat.old }
        ensures steps { GoesOver ((pool_of self.now).words * passes_of result
            (returns_between first.value.me.0.operations seat.new.me.0.operations)) 1 first.value
            seat.new }
        ensures outcome { MatchOption result (ReadsOn first.value.me seat.new.me
            × IsFullSince (pool_of self.now).slots first.value.me.0.operations seat.new.me.0)
            (λ taken. Takes K.meets (pool_of self.now) taken first.value.me seat.new.me) }
    {
        let mut before = match self.take_beside(seat, start, order) {
            Ok(taken) => return Some(taken),
            Err(returns) => returns,
        };
        for _ in 0..u64::MAX {
            let (word, _) = self.shared.count(seat, start);
            let after = match self.take_in_pass(seat, start, word, order) {
                Ok(taken) => return Some(taken),
                Err(returns) => returns,
            };
            if word == 0 && after == before {
                return None;
            }
            before = after;
        }
        None
    }

    /// Takes an item that is free in one pass, by a user that has read the first word. It hints at
    /// the page of an item beyond that word.
    ///
    /// # Errors
    ///
    /// How many returns the other words count together, modulo 2^32.
    #[inline(always)]
    pub(super) fn take_in_pass(
        &self,
        seat: &mut UserSeat<T>,
        start: usize,
        word: u32,
        order: Option<Order>,
    ) -> Result<TakenValue<T>, u32>
        requires ready { IsReady (pool_of self.now) seat.old }
        requires in_pool { start < (pool_of self.now).words }
        requires found { (bit : ℕ) → bit < 32 → bit_at word bit ≡ 0
            → IsOutNow seat.old.me.0 (32 * start + bit) }
        ensures steps { GoesOver (pool_of self.now).words 1 seat.old seat.new }
        ensures outcome { MatchResult result
            (λ taken. Takes K.meets (pool_of self.now) taken seat.old.me seat.new.me)
            (λ returns. PassesAll (pool_of self.now) start returns seat.old.me seat.new.me) }
    {
        if let Some(taken) = self.shared.take_lowest(seat, start, word) {
            return Ok(taken);
        }
        self.take_beside(seat, start, order)
    }

    /// Takes an item that is free from the words beside the first one, in this order, or in the
    /// pool's own. It hints at the page of that item.
    ///
    /// # Errors
    ///
    /// How many returns these words count together, modulo 2^32.
    #[inline(always)]
    fn take_beside(
        &self,
        seat: &mut UserSeat<T>,
        start: usize,
        order: Option<Order>,
    ) -> Result<TakenValue<T>, u32>
        requires ready { IsReady (pool_of self.now) seat.old }
        requires in_pool { start < (pool_of self.now).words }
        ensures steps { GoesOver ((pool_of self.now).words - 1) 0 seat.old seat.new }
        ensures outcome { MatchResult result
            (λ taken. Takes K.meets (pool_of self.now) taken seat.old.me seat.new.me) (λ returns.
            PassesOver (is_beside 0 (pool_of self.now).words start) returns seat.old.me
            seat.new.me) }
    {
        let order = order.unwrap_or(self.order);
        let next = match order {
            Order::Round => start + 1,
            Order::LowFirst => self.lowest(),
            Order::Hinted => self.hinted(),
        };
        let taken = match self.scan(seat, next, self.pages, start) {
            Ok(taken) => taken,
            Err(behind) => match self.scan(seat, 0, next, start) {
                Ok(taken) => taken,
                Err(returns) => return Err(behind.wrapping_add(returns)),
            },
        };
        let page = taken.number / PAGE_ITEMS;
        self.set_hint(page);
        if let Order::LowFirst = order {
            self.found_at(next, page);
        }
        Ok(taken)
    }

    /// Reads the words from one page up to before another, but for one that is skipped, and takes
    /// what is free in them.
    ///
    /// # Errors
    ///
    /// How many returns these words count together, modulo 2^32.
    #[inline(always)]
    fn scan(
        &self,
        seat: &mut UserSeat<T>,
        from: usize,
        to: usize,
        skipped: usize,
    ) -> Result<TakenValue<T>, u32>
        requires ready { IsReady (pool_of self.now) seat.old }
        requires ordered { from ≤ to }
        requires in_pool { to ≤ (pool_of self.now).words }
        ensures steps { GoesOver (to - from) 0 seat.old seat.new }
        ensures fewer_steps { from ≤ skipped → skipped < to
            → GoesOver (to - from - 1) 0 seat.old seat.new }
        ensures outcome { MatchResult result
            (λ taken. Takes K.meets (pool_of self.now) taken seat.old.me seat.new.me)
            (λ returns. PassesOver (is_beside from to skipped) returns seat.old.me seat.new.me) }
    {
        let mut returns: u32 = 0;
        for page in from..to {
            if page == skipped {
                continue;
            }
            let (word, count) = self.shared.count(seat, page);
            if let Some(taken) = self.shared.take_lowest(seat, page, word) {
                return Ok(taken);
            }
            returns = returns.wrapping_add(count);
        }
        Err(returns)
    }
}

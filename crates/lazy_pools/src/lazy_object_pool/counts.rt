//! How many items a lazy pool has, and how it makes them beforehand.
//!
//! Clauses bound the counts. Only `test_lazy_pools` tells a wrong one.
ghost use Rattle.std.specs.Prelude.{◌<◌, ◌≤◌, None, IfErr};

use super::LazyObjectPool;
use pool_parts::PullError;
use pool_parts::clean::Clean;
use pool_parts::closures::{Init, Reset};
use pool_parts::page::PAGE_ITEMS;
use pool_parts::page::inside::PulledItem;
use std::sync::atomic::Ordering::SeqCst;

impl<T: Drop, I: Init<T, K>, R: Reset<T, K>, K: Clean<T>> LazyObjectPool<T, I, R, K> {
    ghost use Rattle.pool_parts.specs.Answers.{RefusesOrClosed};
    ghost use Rattle.lazy_pools.specs.LazyPool.{lazy_view};

    /// Returns the most items that the pool has ever had at once, in use or free. It never falls:
    /// an item that is made in the place of one that was discarded or detached isn't counted anew.
    pub fn made(&self) -> usize
        ensures { result ≤ (lazy_view self.now).items }
    {
        self.made.load(SeqCst).min(self.places.count())
    }

    /// Returns the number of items in use, for metrics. It reads one word for each page of 32
    /// items, one after another. Pulls and returns of other threads come in between, so the number
    /// may be one that never was. It counts the places that a call has taken to make an item there,
    /// and those of items that were leaked.
    pub fn in_use(&self) -> usize
        ensures { result ≤ (lazy_view self.now).items }
    {
        let items = self.places.count();
        let mut free: usize = 0;
        for page in 0..items.div_ceil(PAGE_ITEMS) {
            let (word, _) = self.places.shared.look(page);
            free = free.saturating_add(word.count_ones() as usize);
        }
        items.saturating_sub(free)
    }

    /// Returns the number of threads that wait for an item, for metrics.
    pub fn waiting(&self) -> usize {
        self.waiters.count()
    }

    /// Makes items, by number, until the pool has `items` of them. It takes one empty place at a
    /// time, and passes over those that another call has meanwhile.
    ///
    /// # Errors
    ///
    /// - `Init` if `init` returned `None`. The items made until then stay.
    /// - `Closed` if the pool was closed.
    pub fn fill(&self, items: usize) -> Result<(), PullError>
        ensures refused { IfErr result
            (RefusesOrClosed ⊥ (I.answers (lazy_view self.now).init None) ⊥) }
    {
        for number in 0..self.places.count() {
            if self.is_closed() {
                return Err(PullError::Closed);
            }
            if self.existing.load(SeqCst) >= items {
                return Ok(());
            }
            self.fill_place(number)?;
        }
        Ok(())
    }

    /// Makes the value of a place that is free and empty.
    fn fill_place(&self, number: usize) -> Result<(), PullError>
        requires { number < (lazy_view self.now).items }
        ensures refused { IfErr result
            (RefusesOrClosed ⊥ (I.answers (lazy_view self.now).init None) ⊥) }
    {
        let Some(pulled) = self.take_place(number) else {
            return Ok(());
        };
        let PulledItem { holding, value } = self.item(pulled)?;
        self.give_kept(holding, value);
        Ok(())
    }

    /// Counts an item that was made, while its place is out.
    pub(crate) fn count_made(&self) {
        let before = self.existing.fetch_add(1, SeqCst);
        self.made.fetch_max(before.wrapping_add(1), SeqCst);
    }
}

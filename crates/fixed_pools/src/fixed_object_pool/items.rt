//! The items of a fixed pool: a word for each page, and what a pull and a return do there.
//!
//! The prover tells a change of words or values. No clause speaks of the hints, which `ci/two_sizes`
//! measures, nor of the pages of `near`, which `test_fixed_pools` tests.
ghost use Rattle.std.specs.Prelude.{◌≡◌, ◌+◌, ◌-◌, ◌*◌, ◌/◌, ◌^◌, ◌<◌, ◌≤◌, [], ◌∷◌, Option, None, Some, IfOk, IfErr, false, vec_len, ⊤};
ghost use Rattle.pool_parts.specs.PageItems.{items_view};
ghost use Rattle.pool_parts.specs.PageRule.{IsAllFree};

use super::busy_seen::BusySeen;
use super::order::Order;
use pool_parts::PullError;
use pool_parts::clean::Clean;
use pool_parts::page::inside::{Holding, Items, PulledItem, TakenValue, UserSeat};
use pool_parts::page::{PAGE_ITEMS, PageNote, PullPass};
use std::alloc::{AllocError, Global};
use std::sync::atomic::AtomicU64;
use std::sync::atomic::Ordering::SeqCst;

/// How many words share a cache line.
const WORDS_APART: usize = 8;

/// Returns the word of a page of which the first `count` items are free.
fn low_bits(count: usize) -> u64
    requires { count ≤ 32 }
    ensures { result ≡ 2 ^ count - 1 }
{
    (1 << count) - 1
}

/// Returns the words of `count` free items.
fn free_words(alloc: Global, count: usize) -> Result<Vec<u64>, AllocError>
    requires { 1 ≤ count }
    ensures pages { IfOk result (λ words. vec_len words ≡ (count + 31) / 32) }
    ensures all_free { IfOk result (λ words. IsAllFree count words.items) }
{
    let last = (count - 1) / PAGE_ITEMS;
    let mut words = vec![in alloc; u32::MAX as u64; last + 1]?;
    words[last] = low_bits(count - PAGE_ITEMS * last);
    Ok(words)
}

/// The items of a fixed pool. A page is one word, and the words lie side by side.
#[derive(Drop)]
pub struct FixedItems<T, K: Clean<T>> {
    pub shared: Items<T, K>,
    count: usize,
    pub(super) pages: usize,
    pub(super) order: Order,
    /// The page at which the next pull starts. It promises nothing.
    hint: AtomicU64,
    /// The page below which each was seen full, in a pool that asks lower pages first. It promises
    /// nothing.
    lowest: AtomicU64,
    /// How many pages were named by `next_own_page`. It promises nothing.
    own_pages: AtomicU64,
    ghost counted: { count ≡ (items_view shared).identity.slots },
    ghost paged: { pages ≡ (items_view shared).identity.words },
    ghost counts_returns: { (items_view shared).raise ≡ 1 },
}

impl<T, K: Clean<T>> FixedItems<T, K> {
    ghost use Rattle.pool_parts.specs.Answers.{MayMake, Refuses};
    ghost use Rattle.fixed_pools.specs.FixedPool.{IsBusy, IsFullNote, PullsItem, pool_of, returns_since};
    ghost use Rattle.pool_parts.specs.Page.{view_of};
    ghost use Rattle.pool_parts.specs.PageItems.{items_view};
    ghost use Rattle.pool_parts.specs.Item.{IsFilled, new_user};
    ghost use Rattle.pool_parts.specs.PageRule.{GoesOn, MayTake};
    ghost use Rattle.pool_parts.specs.declared.page.history.Operation.TheVariants.{Return};

    /// Creates `count` free items. Item `i` is the answer of call `i` of `init`, counted from 0.
    ///
    /// It stops at the first `None`. If it fails, the items that were made are dropped.
    pub fn new<I: Fn() -> Option<T>>(
        alloc: Global,
        count: usize,
        order: Order,
        init: &I,
    ) -> Result<FixedItems<T, K>, PullError>
    where
        T: Drop,
        requires some_item { 1 ≤ count }
        requires may_make { MayMake I.pre I.post K.meets init.now }
        ensures refused { IfErr result (Refuses ⊤ (I.post init.now None) ⊥) }
        ensures count { IfOk result (λ fixed. (items_view fixed.shared).identity.slots ≡ count) }
        ensures pages { IfOk result (λ fixed. (items_view fixed.shared).identity.words
            ≡ (count + 31) / 32) }
        ensures opened { IfOk result (λ fixed. IsFilled count (λ made. I.post init.now (Some made))
            (items_view fixed.shared).opening) }
    {
        let Some(_) = count.checked_add(PAGE_ITEMS - 1) else {
            return Err(PullError::Memory);
        };
        let words = free_words(alloc, count)?;
        let shared = Items::new(alloc, count, &words, 1, init)?;
        Ok(FixedItems {
            shared,
            count,
            pages: words.len(),
            order,
            hint: AtomicU64::new(0),
            lowest: AtomicU64::new(0),
            own_pages: AtomicU64::new(0),
        })
    }

    /// Returns the number of items.
    pub fn count(&self) -> usize
        ensures { result ≡ (pool_of self.now).slots }
    {
        self.count
    }

    /// Returns the page of this number, where the pages are counted round and round.
    ///
    /// A division takes as long as an atomic step, so it is made only for a number that is past the
    /// pages.
    pub fn page_round(&self, page: usize) -> usize
        ensures { result < (pool_of self.now).words }
    {
        if page < self.pages {
            page
        } else {
            page % self.pages
        }
    }

    /// Returns the page at which a pull starts.
    pub(super) fn hinted(&self) -> usize
        ensures { result < (pool_of self.now).words }
    {
        let hint = self.hint.load(SeqCst) as usize;
        if hint < self.pages { hint } else { 0 }
    }

    /// Returns a page for one more user that begins at a page of its own.
    ///
    /// Each is a cache line further than the one before. Once the pages have come round, each is
    /// one page further than the round before, so in a small pool users share a page only if there
    /// are more users than pages.
    pub fn next_own_page(&self) -> usize
        ensures { result < (pool_of self.now).words }
    {
        let number = self.own_pages.fetch_add(1, SeqCst) as usize;
        let lines = self.pages.div_ceil(WORDS_APART);
        let page = WORDS_APART * (number % lines) + number / lines % WORDS_APART;
        self.page_round(page)
    }

    /// Sets the hint to a page that may have a free item. If it names the page already, that costs
    /// only a load.
    pub(super) fn set_hint(&self, page: usize) {
        if self.hint.load(SeqCst) != page as u64 {
            self.hint.store(page as u64, SeqCst);
        }
    }

    /// Returns the page at which a pull begins that asks lower pages first: those below it were
    /// seen full.
    pub(super) fn lowest(&self) -> usize
        ensures { result < (pool_of self.now).words }
    {
        let lowest = self.lowest.load(SeqCst) as usize;
        if lowest < self.pages { lowest } else { 0 }
    }

    /// Says that a page may have a free item.
    fn lower(&self, page: usize) {
        if (page as u64) < self.lowest.load(SeqCst) {
            self.lowest.fetch_min(page as u64, SeqCst);
        }
    }

    /// Notes where an item was found by a pull that began at page `lowest`, and found those between
    /// full. It looks at these again: an item may have come back before they were passed by.
    pub(super) fn found_at(&self, lowest: usize, page: usize) {
        self.lower(page);
        let seen = self
            .lowest
            .compare_exchange(lowest as u64, page as u64, SeqCst, SeqCst);
        if seen.is_err() {
            return;
        }
        for passed in lowest..page.min(self.pages) {
            if self.shared.look(passed).0 != 0 {
                self.lower(passed);
                return;
            }
        }
    }

    /// Pulls an item by one pass, or returns the evidence that each one was seen in use.
    ///
    /// It begins at the hinted page, and goes on in the pool's order. Each word is read once at
    /// most, and each bit that was set in it is cleared, lowest first, until one was still set.
    /// Beyond its first page it hints at the page of its item.
    pub fn try_pull<'p>(&self, pass: &'p PullPass) -> Result<PulledItem<T>, BusySeen<'p, T>>
        ensures pulled { IfOk result (λ item. PullsItem K.meets (pool_of self.now) 1
            (new_user (items_view self.now.shared).opening (view_of item.holding.seat).user) item) }
        ensures busy { IfErr result (λ busy. IsBusy (pool_of self.now)
            (new_user (items_view self.now.shared).opening busy.known.user) busy.page busy.known) }
    {
        let page = self.hinted();
        let (word, mut seat) = self.shared.look(page);
        let Ok(taken) = self.take_in_pass(&mut seat, page, word, None) else {
            return Err(BusySeen { seat, pass });
        };
        Ok(PulledItem {
            holding: Holding {
                seat,
                number: taken.number,
            },
            value: taken.value,
        })
    }

    /// Pulls an item, or returns a note of a pool that was full at one moment. It begins at the
    /// hinted page, and goes on in the pool's order.
    ///
    /// It isn't inlined, so that an owned or a lazy item isn't moved through memory.
    #[inline(never)]
    pub fn pull(&self) -> Result<PulledItem<T>, PageNote<T>>
        ensures pulled { IfOk result (λ item.
            PullsItem K.meets (pool_of self.now) (returns_since (view_of item.holding.seat) + 1)
            (new_user (items_view self.now.shared).opening (view_of item.holding.seat).user) item) }
        ensures full { IfErr result (λ note. IsFullNote (pool_of self.now)
            (new_user (items_view self.now.shared).opening (view_of note.seat).user) note) }
    {
        self.pull_in_order(self.hinted(), None)
    }

    /// Pulls a free item, from this page on and in this order, or in the pool's own. While this
    /// page has a free item it neither reads nor sets the hint.
    ///
    /// # Errors
    ///
    /// The note of a user that found the pool full at one moment, as `pull` says.
    #[inline(always)]
    pub fn pull_in_order(
        &self,
        start: usize,
        order: Option<Order>,
    ) -> Result<PulledItem<T>, PageNote<T>>
        requires { start < (pool_of self.now).words }
        ensures pulled { IfOk result (λ item.
            PullsItem K.meets (pool_of self.now) (returns_since (view_of item.holding.seat) + 1)
            (new_user (items_view self.now.shared).opening (view_of item.holding.seat).user) item) }
        ensures full { IfErr result (λ note. IsFullNote (pool_of self.now)
            (new_user (items_view self.now.shared).opening (view_of note.seat).user) note) }
    {
        let (word, mut seat) = self.shared.look(start);
        match self.take_or_full(&mut seat, start, word, order) {
            Some(taken) => Ok(PulledItem {
                holding: Holding {
                    seat,
                    number: taken.number,
                },
                value: taken.value,
            }),
            None => Err(PageNote { seat }),
        }
    }

    /// Pulls a free item in one pass, by a user that knows something of the pool. The pull comes
    /// after all that it knew.
    pub(super) fn pull_from<'p>(
        &self,
        pass: &'p PullPass,
        note: PageNote<T>,
    ) -> Result<PulledItem<T>, BusySeen<'p, T>>
        requires { note.seat.table_id ≡ (pool_of self.now) }
        ensures pulled { IfOk result (PullsItem K.meets (pool_of self.now) 1 (view_of note.seat)) }
        ensures busy { IfErr result (λ busy.
            IsBusy (pool_of self.now) (view_of note.seat) busy.page busy.known) }
    {
        let PageNote { mut seat } = note;
        let start = self.hinted();
        let word = self.shared.look_again(&mut seat, start);
        let Ok(taken) = self.take_in_pass(&mut seat, start, word, None) else {
            return Err(BusySeen { seat, pass });
        };
        Ok(PulledItem {
            holding: Holding {
                seat,
                number: taken.number,
            },
            value: taken.value,
        })
    }

    /// Pulls a free item, from this page on, by a user that knows something of the pool. The pull
    /// comes after all that it knew. A refused pull returns the note, which knows what was found.
    #[inline(always)]
    pub(super) fn pull_onward(
        &self,
        page: usize,
        note: PageNote<T>,
    ) -> Result<PulledItem<T>, PageNote<T>>
        requires page { page < (pool_of self.now).words }
        requires note { note.seat.table_id ≡ (pool_of self.now) }
        ensures pulled { IfOk result (λ item. PullsItem K.meets (pool_of self.now)
            (returns_since (view_of item.holding.seat) + 1) (view_of note.seat) item) }
        ensures full { IfErr result (IsFullNote (pool_of self.now) (view_of note.seat)) }
    {
        let PageNote { mut seat } = note;
        let word = self.shared.look_again(&mut seat, page);
        match self.take_or_full(&mut seat, page, word, Some(Order::Hinted)) {
            Some(taken) => Ok(PulledItem {
                holding: Holding {
                    seat,
                    number: taken.number,
                },
                value: taken.value,
            }),
            None => Err(PageNote { seat }),
        }
    }

    /// Moves the value back and sets its bit, by the user that has the item. It hints at a page
    /// that was full.
    pub fn give(&self, holding: Holding<T>, value: T) -> UserSeat<T>
        requires pool { holding.seat.table_id ≡ (pool_of self.now) }
        requires in_pool { holding.number < (pool_of self.now).slots }
        requires meets { K.meets value }
        ensures pool { result.table_id ≡ holding.seat.table_id }
        ensures may_take { MayTake result.me }
        ensures returned { GoesOn (Return result.me.0.user holding.number value ∷ [])
            (view_of holding.seat) result.me.0 }
    {
        let page = holding.number / PAGE_ITEMS;
        let (seat, was_full) = self.shared.give(holding, value, 1);
        if was_full {
            self.set_hint(page);
            self.lower(page);
        }
        seat
    }
}
